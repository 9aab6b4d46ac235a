// Names as numbers. Document 02: "the name as ten six-bit codes (byte less 32, blank padding 0) in one 60-bit number, first character
// highest".
ghost use Rattle.std.specs.Prelude.{◌≡◌, ◌+◌, ◌*◌, ◌/◌, ◌%◌, ◌^◌, ◌≤◌, ◌<◌, length, take};
ghost use Rattle.paper.specs.Layout.{code_of, packed, unpacked};
ghost use Rattle.paper.specs.Name.{same};
ghost use Rattle.paper.specs.Number.{bytes_of};
ghost use Rattle.records.specs.Characters.{characters};

use crate::bytes::{Bytes, byte_at};
use crate::name::are_same;

// A name out of its number: ten characters, of which the first so many are the name. It is handed over by value, so it is no slice.
#[derive(Clone, Copy)]
pub struct Unpacked {
    pub characters: [u8; 10],
    pub length: usize,
}

impl Unpacked {
    // "ten six-bit codes"
    pub const MOST: usize = 10;
    // The numbers of names are below this one: "one 60-bit number".
    pub const NUMBERS: u64 = 1152921504606846976;
    // The character whose code is 0.
    const BLANK: u8 = 32;
}

// A character's code: "byte less 32".
fn code_of(b: u8) -> u64
    ensures { (result ≡ code_of b) × (result < 64) }
{
    u64::from(b.saturating_sub(Unpacked::BLANK) % 64)
}

// A code behind those of a number: they are shifted up by six bits, and it is joined to them.
fn shifted_in(x: u64, code: u64) -> u64
    requires { (x < 2 ^ 54) × (code < 64) }
    ensures { result ≡ x * 64 + code }
{
    (x << 6) | code
}

// The number of a name; what a name has past ten characters is not in it.
pub fn pack(name: &[u8]) -> u64
    ensures { (result ≡ packed name.now) × (result < 2 ^ 60) }
{
    let mut x: u64 = 0;
    for j in 0..Unpacked::MOST {
        x = shifted_in(x, code_of(byte_at(name, j)));
    }
    x
}

// The last code of a number.
fn last_code(x: u64) -> u8
    ensures { (result ≡ x % 64) × (result < 64) }
{
    (x & 63) as u8
}

// The codes before the last.
fn shifted_out(x: u64) -> u64
    ensures { result ≡ x / 64 }
{
    x >> 6
}

// The ten characters of a number, padding and all.
fn characters(x: u64) -> [u8; Unpacked::MOST]
    ensures { result ≡ characters 10 x }
{
    let mut r = [0u8; Unpacked::MOST];
    let mut rest = x;
    for k in (0..Unpacked::MOST).rev() {
        r[k] = last_code(rest) + Unpacked::BLANK;
        rest = shifted_out(rest);
    }
    r
}

// How many characters the name of a number has: codes of 0 at its end are padding.
pub fn unpacked_length(x: u64) -> Bytes
    ensures { (result.0 ≡ length (unpacked x)) × (result.0 ≤ 10) }
{
    let mut rest = x;
    for n in (0..Unpacked::MOST).rev() {
        if last_code(rest) != 0 {
            return Bytes(n + 1);
        }
        rest = shifted_out(rest);
    }
    Bytes(0)
}

// The name of a number.
pub fn unpack(x: u64) -> Unpacked
    ensures { (take result.length result.characters ≡ unpacked x) × (result.length ≤ 10) × (length result.characters ≡ 10) }
{
    Unpacked {
        characters: characters(x),
        length: unpacked_length(x).0,
    }
}

// Whether a name is that of a number.
pub fn is_unpacked(name: &[u8], x: u64) -> bool
    ensures { result ≡ same name.now (unpacked x) }
{
    let Unpacked { characters, length } = unpack(x);
    are_same(name, &characters[..length])
}

// A number's eight bytes, "low byte first".
pub fn bytes_of(x: u64) -> [u8; 8]
    ensures { result ≡ bytes_of 8 x }
{
    x.to_le_bytes()
}
