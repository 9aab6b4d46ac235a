// The lamp's own refusals, each tried over all sheets before the next, before anything is asked of the box.
ghost use Rattle.std.specs.Prelude.{◌≡◌, Bool, ℕ};
ghost use Rattle.job.specs.Sheet.{count};
ghost use Rattle.job.specs.Refusal.{twice, missing, admission};
ghost use Rattle.lamp.specs.Refused.{Tells, first_sheet, number_of, refused_at, admission_shown};

use crate::failure::Failure;
use crate::sheet::{count_sheets, is_formed, length_of, link_of};
use records::name::are_same;

// The refusals, by their numbers.
#[derive(Clone, Copy)]
enum Refusal {
    Malformed = 1,
    NameTwice = 2,
    TextsShort = 3,
    BackShort = 4,
}

// "2 name twice"
fn is_twice(sheets: &[u8], i: usize) -> bool
    ensures { result ≡ twice sheets.now i }
{
    let link = link_of(sheets, i);
    (0..i).any(|j| are_same(link, link_of(sheets, j)))
}

// The first sheet, from 1, that is wrong.
fn first_wrong<F: Fn(usize) -> bool>(sheets: &[u8], is_wrong: F) -> Option<usize>
    requires { F.IsAlwaysCallable is_wrong }
    ensures { (p : ℕ → Bool) → Tells (F.post is_wrong) p (count sheets.now)
        → result ≡ first_sheet p (count sheets.now) }
{
    for i in 0..count_sheets(sheets) {
        if is_wrong(i) {
            return Some(i + 1);
        }
    }
    None
}

// "3 texts shorter than the lengths' sum": the first sheet, from 1, whose text is not wholly there.
fn first_missing(sheets: &[u8], texts: &[u8]) -> Option<usize>
    ensures { result ≡ first_sheet (missing sheets.now texts.now) (count sheets.now) }
{
    let mut left = texts.len();
    for i in 0..count_sheets(sheets) {
        let length = length_of(sheets, i);
        if left < length {
            return Some(i + 1);
        }
        left -= length;
    }
    None
}

// Refused where there is such a sheet.
fn refuse(refusal: Refusal, sheet: Option<usize>) -> Result<(), Failure>
    ensures { result ≡ refused_at (number_of refusal) sheet }
{
    match sheet {
        Some(sheet) => Err(Failure::Refused {
            sheet,
            number: refusal as u32,
        }),
        None => Ok(()),
    }
}

// The four refusals in order.
pub fn admit(sheets: &[u8], texts: &[u8], back: &[u8]) -> Result<(), Failure>
    ensures { result ≡ admission_shown (admission sheets.now texts.now back.now) }
{
    refuse(
        Refusal::Malformed,
        first_wrong(sheets, |i| !is_formed(sheets, i)),
    )?;
    refuse(
        Refusal::NameTwice,
        first_wrong(sheets, |i| is_twice(sheets, i)),
    )?;
    refuse(Refusal::TextsShort, first_missing(sheets, texts))?;
    refuse(
        Refusal::BackShort,
        first_wrong(sheets, |i| back.len() < length_of(sheets, i)),
    )
}
