// Bytes and numbers of a record, read where the caller knows that the record is there. `from_le_bytes` takes an array, which would be built of
// these bytes one by one: the sums are as plain, and the compiler makes one read of each.
ghost use Rattle.std.specs.Prelude.{◌≡◌, ◌<◌};
ghost use Rattle.paper.specs.Layout.{packed_name};
ghost use Rattle.paper.specs.Number.{number_at};
ghost use Rattle.paper.specs.Record.{byte, two, three};
ghost use Rattle.paper.specs.Table.{rooms, rec};

use records::bytes::Room;
use records::entry::Entry;

// The byte at place j of record i.
pub(crate) fn raw_of(t: &[u8], i: usize, j: usize) -> u8
    requires { (i < rooms t.now) × (j < 32) }
    ensures { result ≡ byte (rec t.now i) j }
{
    t[i * Room::SIZE + j]
}

pub(crate) fn byte_of(t: &[u8], i: usize, j: usize) -> usize
    requires { (i < rooms t.now) × (j < 32) }
    ensures { (result ≡ byte (rec t.now i) j) × (result < 256) }
{
    usize::from(raw_of(t, i, j))
}

// The two-byte number at place j of record i, low byte first.
pub(crate) fn two_of(t: &[u8], i: usize, j: usize) -> usize
    requires { (i < rooms t.now) × (j < 31) }
    ensures { (result ≡ two (rec t.now i) j) × (result < 65536) }
{
    byte_of(t, i, j) + byte_of(t, i, j + 1) * 256
}

// The three-byte number at place j of record i, low byte first.
pub(crate) fn three_of(t: &[u8], i: usize, j: usize) -> usize
    requires { (i < rooms t.now) × (j < 30) }
    ensures { (result ≡ three (rec t.now i) j) × (result < 16777216) }
{
    byte_of(t, i, j) + byte_of(t, i, j + 1) * 256 + byte_of(t, i, j + 2) * 65536
}

// The four-byte number at place j of record i, low byte first: one read.
pub(crate) fn four_of(t: &[u8], i: usize, j: usize) -> usize
    requires { (i < rooms t.now) × (j < 29) }
    ensures { (result ≡ number_at 4 (rec t.now i) j) × (result < 4294967296) }
{
    two_of(t, i, j) + two_of(t, i, j + 2) * 65536
}

// The eight-byte number at place j of record i, low byte first: one read.
pub(crate) fn eight_of(t: &[u8], i: usize, j: usize) -> usize
    requires { (i < rooms t.now) × (j < 25) }
    ensures { result ≡ number_at 8 (rec t.now i) j }
{
    four_of(t, i, j) + four_of(t, i, j + 4) * 4294967296
}

// The name of entry i, as its number: "low byte first in bytes 10-17".
pub(crate) fn name_of(t: &[u8], i: usize) -> usize
    requires { i < rooms t.now }
    ensures { (result ≡ packed_name (rec t.now i)) × (result < 18446744073709551616) }
{
    eight_of(t, i, Entry::NUMBER)
}
