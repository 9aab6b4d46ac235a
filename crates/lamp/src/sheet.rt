// A job and its sheets. A sheet's record: a link name, a text length, and zeros.
ghost use Rattle.std.specs.Prelude.{◌≡◌, ◌<◌};
ghost use Rattle.paper.specs.Record.{zeros};
ghost use Rattle.paper.specs.Table.{rec};
ghost use Rattle.job.specs.Sheet.{count, unpadded, link_of, length_of, formed};

use records::bytes::{Bytes, Room, byte_of, part, record_at, two_of};
use words::name::is_link_name;

// What is filed and read back: the sheets and their texts, in the directory that a chain names, for a user.
#[derive(Clone, Copy)]
pub struct Job<'a> {
    pub sheets: &'a [u8],
    pub texts: &'a [u8],
    pub chain: &'a [u8],
    pub user: u32,
}

// A job sheet's layout: its bytes, those of its name, and where its text's length and the rest stand.
#[derive(Clone, Copy)]
struct Sheet;

impl Sheet {
    const SIZE: usize = 32;

    const MOST_NAME: usize = 10;

    const LENGTH: usize = 10;

    const REST: usize = 12;
}

// How many sheets a job has; one that is cut short counts.
pub fn count_sheets(sheets: &[u8]) -> usize
    ensures { result ≡ count sheets.now }
{
    sheets.len().div_ceil(Sheet::SIZE)
}

// The bytes before the first zero.
fn unpadded(s: &[u8]) -> &[u8]
    ensures { result.now ≡ unpadded s.now }
{
    match s.iter().position(|&b| b == 0) {
        Some(n) => &s[..n],
        None => s,
    }
}

// The link name of a sheet, as the stretch of the job that it is.
pub fn link_of(sheets: &[u8], i: usize) -> &[u8]
    ensures { result.now ≡ link_of (rec sheets.now i) }
{
    unpadded(part(record_at(sheets, Room(i)), 0, Bytes(Sheet::MOST_NAME)))
}

// The text length of a sheet.
pub fn length_of(sheets: &[u8], i: usize) -> usize
    ensures { (result ≡ length_of (rec sheets.now i)) × (result < 65536) }
{
    two_of(sheets, Room(i), Sheet::LENGTH) as usize
}

// Whether the n bytes of a sheet from a place on are zero.
fn are_zeros(sheets: &[u8], i: usize, place: usize, n: usize) -> bool
    requires { (place < 32) × (n < 33) }
    ensures { result ≡ zeros place n (rec sheets.now i) }
{
    for m in 0..n {
        if byte_of(sheets, Room(i), place + m) != 0 {
            return false;
        }
    }
    true
}

// Whether a record is a sheet.
pub fn is_formed(sheets: &[u8], i: usize) -> bool
    ensures { result ≡ formed (rec sheets.now i) }
{
    let link = link_of(sheets, i);
    record_at(sheets, Room(i)).len() == Sheet::SIZE
        && is_link_name(link)
        && are_zeros(sheets, i, link.len(), Sheet::MOST_NAME - link.len())
        && are_zeros(sheets, i, Sheet::REST, Sheet::SIZE - Sheet::REST)
}
