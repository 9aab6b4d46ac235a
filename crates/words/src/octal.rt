// The numbers of RDS, and what digits make.
ghost use Rattle.std.specs.Prelude.{◌≡◌, [], ◌∷◌};
ghost use Rattle.paper.specs.Name.{counting};
ghost use Rattle.paper.specs.Octal.{digits, octal};
ghost use Rattle.words.specs.Shown.{shown_octal};
ghost use Rattle.words.specs.SixDigits.{SixDigits};

use crate::class::is_octal;
use records::name::are_same;

// What is no number: neither octal digits nor a dash.
#[derive(Clone, Copy, PartialEq, Eq)]
pub struct NoNumber;

const BASE: u32 = 8;

// The most digits that a number has.
const MOST_DIGITS: usize = 6;

// What digits make in a base, six of them at most.
pub(crate) fn number_of(base: u32, digits: &[u8]) -> u32
    requires { SixDigits base digits.now }
    ensures { result ≡ counting base 0 digits.now }
{
    let mut k = 0;
    for b in digits {
        k = k * base + u32::from(*b - b'0');
    }
    k
}

// The number that a name is, if it is no dash: one to six octal digits.
#[tactic(auto, using(crate::proofs::Octals::digits_tests))]
fn digits_of(n: &[u8]) -> Result<Option<u32>, NoNumber>
    ensures { result ≡ shown_octal (digits n.now) }
{
    match n.len() {
        1..=MOST_DIGITS if n.iter().all(|b| is_octal(*b)) => Ok(Some(number_of(BASE, n))),
        _ => Err(NoNumber),
    }
}

// The number that a name is: one dash gives none.
#[tactic(auto, unfolding(paper::specs::Octal::octal))]
pub fn octal_of(w: &[u8]) -> Result<Option<u32>, NoNumber>
    ensures { result ≡ shown_octal (octal (w.now ∷ [])) }
{
    if are_same(w, b"-") {
        Ok(None)
    } else {
        digits_of(w)
    }
}
