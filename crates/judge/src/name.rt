// The names of entries, by their numbers: "ten six-bit codes (byte less 32, blank padding 0) in one 60-bit number, first character highest".
ghost use Rattle.std.specs.Prelude.{◌≡◌, ◌+◌, ◌<◌, ◌≤◌, ◌^◌};
ghost use Rattle.paper.specs.Layout.{unpacked, boxed};
ghost use Rattle.paper.specs.Name.{in_base, all, link_name, legal_base};
ghost use Rattle.paper.specs.Table.{rooms, rec};
ghost use Rattle.judge_laws.specs.Codes.{spelled, class_bits, Classed, area};

use crate::read::{name_of, raw_of};
use crate::zeros::are_zeros_by_two;
use records::entry::Entry;

// The codes of a name's characters as one number, and how many they are.
#[derive(Clone, Copy)]
pub(crate) struct Codes {
    pub value: usize,
    pub count: usize,
}

impl Codes {
    // "ten six-bit codes"
    const MOST: usize = 10;
    // "one 60-bit number"
    const NUMBERS: usize = 1 << 60;
    // What the first of ten codes is multiplied by.
    const FIRST: usize = 1 << 54;
    // What the first two are.
    const SECOND: usize = 1 << 48;
    // "byte less 32, blank padding 0"
    const BLANK: usize = b' ' as usize - 32;

    const POINT: usize = b'.' as usize - 32;

    const COLON: usize = b':' as usize - 32;

    const AT: usize = b'@' as usize - 32;

    const A: usize = b'A' as usize - 32;

    const Z: usize = b'Z' as usize - 32;

    // The name of the number x: the blanks at its end are padding. A `while`: it ends at the first code that is no blank, and
    // divides by its place in no list.
    fn without_blanks(x: usize) -> Codes
        requires { (0 < x) × (x < 2 ^ 60) }
        ensures { (spelled result.count result.value ≡ unpacked x) × (0 < result.count) × (result.count ≤ 10) }
    {
        let mut value = x;
        let mut count = Codes::MOST;
        while value % 64 == 0 {
            value /= 64;
            count -= 1;
        }
        Codes { value, count }
    }

    // Whether all these codes are letters and points, the last one first.
    fn are_in_base(self) -> bool
        ensures { result ≡ all in_base (spelled self.count self.value) }
    {
        let mut rest = self.value;
        for _ in 0..self.count {
            if !is_in_base(rest % 64) {
                return false;
            }
            rest /= 64;
        }
        true
    }
}

// The four areas: a point's code and the letter's, and 48 zero bits after them.
struct Area;

impl Area {
    const G: usize = (Codes::POINT * 64 + (b'G' as usize - 32)) * Codes::SECOND;

    const R: usize = (Codes::POINT * 64 + (b'R' as usize - 32)) * Codes::SECOND;

    const T: usize = (Codes::POINT * 64 + (b'T' as usize - 32)) * Codes::SECOND;

    const W: usize = (Codes::POINT * 64 + (b'W' as usize - 32)) * Codes::SECOND;
}

// Whether bytes 9-31 of entry i are as above: "byte 9 and 18-19 become zero", as are those after them.
pub(crate) fn is_laid(t: &[u8], i: usize) -> bool
    requires { i < rooms t.now }
    ensures { result ≡ boxed.as_above (rec t.now i) }
{
    raw_of(t, i, Entry::NAME) == 0
        && name_of(t, i) < Codes::NUMBERS
        && are_zeros_by_two(t, i, Entry::REST, Entry::REST_SIZE)
}

// "letters and points", less 32
fn is_in_base(code: usize) -> bool
    ensures { result ≡ in_base (code + 32) }
{
    matches!(code, Codes::POINT | Codes::A..=Codes::Z)
}

// The class of each code: 1 for "characters from 33..95 except @ and :", less 32, 0 for a blank, 2 for any other.
#[tactic(auto, using(judge_laws::proofs::Names::classed))]
pub(crate) fn classes() -> [u8; 64]
    ensures { Classed result }
{
    let mut class = [1u8; 64];
    class[Codes::BLANK] = 0;
    class[Codes::COLON] = 2;
    class[Codes::AT] = 2;
    class
}

// The classes of the ten codes of x as one number, the first code's worth 1 and each other's twice that of the one before it.
fn class_sum(class: &[u8; 64], x: usize) -> usize
    requires { Classed class.now }
    ensures { result ≡ class_bits 10 x }
{
    let mut sum: usize = 0;
    let mut rest = x;
    for _ in 0..Codes::MOST {
        sum = sum * 2 + usize::from(class[rest % 64]);
        rest /= 64;
    }
    sum
}

// Whether the name of the number x is a link name: the classes are 1 as far as the name goes, and 0 after it.
pub(crate) fn is_link(class: &[u8; 64], x: usize) -> bool
    requires { Classed class.now }
    ensures { result ≡ link_name (unpacked x) }
{
    matches!(
        class_sum(class, x),
        1 | 3 | 7 | 15 | 31 | 63 | 127 | 255 | 511 | 1023
    )
}

// `.G`, `.R`, `.T` or `.W`.
fn is_area(x: usize) -> bool
    ensures { result ≡ area x }
{
    matches!(x, Area::G | Area::R | Area::T | Area::W)
}

// Whether the name of the number x is a legal base name.
pub(crate) fn is_legal_base(x: usize) -> bool
    requires { x < 2 ^ 60 }
    ensures { result ≡ legal_base (unpacked x) }
{
    if is_area(x) {
        return true;
    }
    if x / Codes::FIRST != Codes::POINT {
        return false;
    }
    let codes = Codes::without_blanks(x);
    3 <= codes.count && codes.are_in_base()
}
