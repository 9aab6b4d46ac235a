// A heading, by itself and as other records name it.
ghost use Rattle.std.specs.Prelude.{◌≡◌, ◌&&◌, ◌<◌, ◌≤◌, ◌%◌, eqb, leb, length};
ghost use Rattle.paper.specs.Record.{is_kind, heading_type, lifetime, text_length, directory, simple};
ghost use Rattle.paper.specs.Sound.{mark_right};
ghost use Rattle.paper.specs.Table.{rooms, rec};
ghost use Rattle.judge_laws.specs.Mask.{without};
ghost use Rattle.judge_laws.specs.Places.{weight};
ghost use Rattle.judge_laws.specs.Shapes.{plain_test, bare_test, heading_right};

use crate::read::{byte_of, raw_of, two_of};
use crate::zeros::{are_zeros, are_zeros_by_two};
use records::block::blocks;
use records::bytes::{Bytes, Room};
use records::code::Code;
use records::heading::Heading;

// Whether record h is a heading that stays.
pub(crate) fn is_heading(t: &[u8], gone: &[u8; Room::MOST], h: usize) -> bool
    requires { (length t.now % 32 ≡ 0) × (length t.now ≤ 65536) }
    ensures { result ≡ is_kind 1 (rec (without gone.now t.now) h) }
{
    h < t.len() / Room::SIZE && raw_of(t, h, Room::KIND) == Heading::KIND && gone[h] == 0
}

// Whether record i is a heading of this type: both bytes at once.
fn is_of_type(t: &[u8], i: usize, sought: u8) -> bool
    requires { i < rooms t.now }
    ensures { result ≡ (is_kind 1 (rec t.now i) && eqb (heading_type (rec t.now i)) sought) }
{
    let found = byte_of(t, i, Room::KIND) + byte_of(t, i, Heading::TYPE) * 256;
    found == usize::from(Heading::KIND) + usize::from(sought) * 256
}

// Whether record h is a directory's heading that stays.
pub(crate) fn is_directory(t: &[u8], gone: &[u8; Room::MOST], h: usize) -> bool
    requires { (length t.now % 32 ≡ 0) × (length t.now ≤ 65536) }
    ensures { result ≡ directory (rec (without gone.now t.now) h) }
{
    h < t.len() / Room::SIZE && is_of_type(t, h, Heading::DIRECTORY) && gone[h] == 0
}

// Whether record i is a simple file's heading that stays.
pub(crate) fn is_simple(t: &[u8], gone: &[u8; Room::MOST], i: usize) -> bool
    requires { (i < rooms t.now) × (length t.now % 32 ≡ 0) × (length t.now ≤ 65536) }
    ensures { result ≡ simple (rec (without gone.now t.now) i) }
{
    is_of_type(t, i, Heading::SIMPLE) && gone[i] == 0
}

// How many text records record i asks for.
pub(crate) fn weight_of(t: &[u8], gone: &[u8; Room::MOST], i: usize) -> usize
    requires { (i < rooms t.now) × (length t.now % 32 ≡ 0) × (length t.now ≤ 65536) }
    ensures { (result ≡ weight (rec (without gone.now t.now) i)) × (result < 2732) }
{
    if is_simple(t, gone, i) {
        blocks(Bytes(two_of(t, i, Heading::LENGTH))).0
    } else {
        0
    }
}

// Whether heading i has lifetime M and length 0.
fn is_medium_and_empty(t: &[u8], i: usize) -> bool
    requires { i < rooms t.now }
    ensures { result ≡ (eqb (lifetime (rec t.now i)) 1 && eqb (text_length (rec t.now i)) 0) }
{
    raw_of(t, i, Heading::LIFETIME) == Heading::MEDIUM && two_of(t, i, Heading::LENGTH) == 0
}

// Whether heading i, if it is a directory's, has lifetime M and length 0.
fn is_plain(t: &[u8], i: usize) -> bool
    requires { i < rooms t.now }
    ensures { result ≡ plain_test (rec t.now i) }
{
    raw_of(t, i, Heading::TYPE) != Heading::DIRECTORY || is_medium_and_empty(t, i)
}

// Whether heading i, if it is a simple file's, has no count of entries that it holds.
fn is_bare(t: &[u8], i: usize) -> bool
    requires { i < rooms t.now }
    ensures { result ≡ bare_test (rec t.now i) }
{
    raw_of(t, i, Heading::TYPE) != Heading::SIMPLE
        || are_zeros(t, i, Heading::HELD, Heading::REST - Heading::HELD)
}

// Whether heading i is not marked, or marked as it may be: simple, M, of length 0.
fn is_mark_right(t: &[u8], i: usize) -> bool
    requires { i < rooms t.now }
    ensures { result ≡ mark_right (rec t.now i) }
{
    match raw_of(t, i, Heading::MARK) {
        Heading::UNMARKED => true,
        Heading::MARKED => {
            raw_of(t, i, Heading::TYPE) == Heading::SIMPLE && is_medium_and_empty(t, i)
        }
        _ => false,
    }
}

// Whether heading i is right.
#[tactic(auto, unfolding(judge_laws::specs::Shapes::heading_right))]
fn is_heading_right(t: &[u8], i: usize) -> bool
    requires { i < rooms t.now }
    ensures { result ≡ heading_right (rec t.now i) }
{
    raw_of(t, i, Heading::TYPE) <= Heading::SIMPLE
        && raw_of(t, i, Heading::LEVEL) <= Heading::LAST_LEVEL
        && raw_of(t, i, Heading::CODE) <= Code::ALL
        && matches!(
            raw_of(t, i, Heading::LIFETIME),
            Heading::MEDIUM..=Heading::LONG
        )
        && is_mark_right(t, i)
        && are_zeros(t, i, Heading::GAP, Heading::GAP_SIZE)
        && is_bare(t, i)
        && are_zeros_by_two(t, i, Heading::REST, Heading::REST_SIZE)
        && is_plain(t, i)
}

// Whether the length of heading i is fit and the heading right.
pub(crate) fn heading_turn(t: &[u8], i: usize) -> bool
    requires { i < rooms t.now }
    ensures { result ≡ (heading_right (rec t.now i) && leb (text_length (rec t.now i)) 24000) }
{
    two_of(t, i, Heading::LENGTH) <= Heading::MOST_LENGTH && is_heading_right(t, i)
}
