// An argument that is a declaration or a number.
ghost use Rattle.std.specs.Prelude.{◌≡◌};
ghost use Rattle.paper.specs.Request.{declared_at, octal_at};
ghost use Rattle.declarations.specs.Given.{shown_declared};
ghost use Rattle.words.specs.Shown.{shown_octal};
ghost use Rattle.reader.specs.Asked.{count_of};

use declarations::declaration::{Parts, declared, omitted};
use words::line::{count_words, lone_word, name, next_name, word_at};
use words::octal::{NoNumber, octal_of};

// The declaration that word k is, or an omitted one where there is no word k; a chain of several names is none.
pub(crate) fn declared_at(line: &[u8], k: usize) -> Option<Parts>
    ensures { result ≡ shown_declared (declared_at line.now k) }
{
    if count_words(line) <= k {
        return omitted();
    }
    let p = word_at(line, k);
    if next_name(line, p).is_some() {
        return None;
    }
    declared(name(line, p))
}

// The number that word k is, or nothing given where there is no word k.
pub(crate) fn octal_at(line: &[u8], k: usize) -> Result<Option<u32>, NoNumber>
    ensures { result ≡ shown_octal (octal_at line.now k) }
{
    if count_words(line) <= k {
        Ok(None)
    } else {
        octal_of(lone_word(line, word_at(line, k)))
    }
}

// A count of 0 is none.
pub(crate) fn as_count(n: Result<Option<u32>, NoNumber>) -> Result<Option<u32>, NoNumber>
    ensures { result ≡ count_of n }
{
    match n {
        Ok(Some(0)) => Err(NoNumber),
        _ => n,
    }
}
