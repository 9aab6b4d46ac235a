// Where a chain starts.
ghost use Rattle.std.specs.Prelude.{◌≡◌, true};
ghost use Rattle.paper.specs.Name.{user_name, user_number};
ghost use Rattle.paper.specs.Request.{is_take, is_take_within, is_give, old_from, new_to};
ghost use Rattle.words.specs.Place.{word_at};
ghost use Rattle.words.specs.Shown.{begin_shown, user_at};

use crate::class::is_digit;
use crate::line::name;
use crate::name::{count_names, is_pointed};
use crate::octal::number_of;

// In the base list of the user who asks; an old name, at that user's `.T`; a new name, in that user's `.G`.
#[derive(Clone, Copy)]
pub enum Begin {
    Own,
    Take(u32),
    Give(u32),
}

impl Begin {
    // The bytes of `.nnnnnn`.
    const BYTES: usize = 7;
}

// Whether a name is `.nnnnnn`: a point and six digits.
#[tactic(auto, using(crate::proofs::Names::user_tests))]
pub fn is_user_name(n: &[u8]) -> bool
    ensures { result ≡ user_name n.now }
{
    is_pointed(n) && n.len() == Begin::BYTES && n.iter().skip(1).all(|b| is_digit(*b))
}

// The user that `.nnnnnn` is.
fn user_number(n: &[u8]) -> u32
    requires { user_name n.now ≡ true }
    ensures { result ≡ user_number n.now }
{
    number_of(10, &n[1..])
}

// The user that the first name of the word at p is, if it is one.
fn user_at(line: &[u8], p: usize) -> Option<u32>
    ensures { result ≡ user_at line.now p }
{
    let n = name(line, p);
    if is_user_name(n) {
        Some(user_number(n))
    } else {
        None
    }
}

// Whether the word at p starts at another user's `.T`, as an old name.
#[tactic(auto, using(crate::proofs::Names::names_start))]
pub fn is_take(line: &[u8], p: usize) -> bool
    ensures { result ≡ is_take (word_at line.now p) }
{
    is_user_name(name(line, p))
}

// .. and goes on from there.
pub fn is_take_within(line: &[u8], p: usize) -> bool
    ensures { result ≡ is_take_within (word_at line.now p) }
{
    is_take(line, p) && 2 <= count_names(line, p)
}

// Whether the word at p is a link in another user's `.G`, as a new name.
pub fn is_give(line: &[u8], p: usize) -> bool
    ensures { result ≡ is_give (word_at line.now p) }
{
    is_take(line, p) && count_names(line, p) == 2
}

// Where the chain at p starts, an old name.
#[tactic(auto, using(crate::proofs::Names::names_start), unfolding(paper::specs::Request::old_from))]
pub fn old_from(line: &[u8], p: usize) -> Begin
    ensures { result ≡ begin_shown (old_from (word_at line.now p)) }
{
    user_at(line, p).map_or(Begin::Own, Begin::Take)
}

// Where the chain at p starts, a new name.
#[tactic(auto, using(crate::proofs::Names::names_start), unfolding(paper::specs::Request::new_to))]
pub fn new_to(line: &[u8], p: usize) -> Begin
    ensures { result ≡ begin_shown (new_to (word_at line.now p)) }
{
    user_at(line, p).map_or(Begin::Own, Begin::Give)
}
