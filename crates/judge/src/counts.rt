// Counts: whether a heading says how many entries name it and how many it holds.
ghost use Rattle.std.specs.Prelude.{◌≡◌, true, ◌<◌};
ghost use Rattle.paper.specs.Count.{says};
ghost use Rattle.paper.specs.Record.{is_kind};
ghost use Rattle.paper.specs.Table.{rooms, rec};
ghost use Rattle.records.specs.Counts.{tells};

use crate::read::{byte_of, raw_of};
use records::bytes::Room;
use records::heading::Heading;

// How many entries name each record, and how many each holds.
#[derive(Drop)]
pub(crate) struct Counts {
    pub named: [u16; Room::MOST],
    pub held: [u8; Room::MOST],
}

// Whether the two bytes of record i from place j on are the number n.
fn is_said(t: &[u8], i: usize, j: usize, n: usize) -> bool
    requires { (i < rooms t.now) × (j < 31) × (n < 65536) }
    ensures { result ≡ says n j (rec t.now i) }
{
    byte_of(t, i, j) + byte_of(t, i, j + 1) * 256 == n
}

// Whether heading i says that so many entries name it and, if it is a directory's, that it holds so many.
pub(crate) fn is_told(t: &[u8], i: usize, named: usize, held: usize) -> bool
    requires { (i < rooms t.now) × (is_kind 1 (rec t.now i) ≡ true) × (named < 65536) × (held < 65536) }
    ensures { result ≡ tells named held (rec t.now i) }
{
    is_said(t, i, Heading::NAMED, named)
        && (raw_of(t, i, Heading::TYPE) != Heading::DIRECTORY || is_said(t, i, Heading::HELD, held))
}
