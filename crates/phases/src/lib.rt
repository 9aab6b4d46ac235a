// A request on a disk: the phase in which each of its records is written.
#![tactic(auto)]

ghost use Rattle.std.specs.Prelude.{◌≡◌};
ghost use Rattle.disk.specs.Phase.{only_counts, phase_of, phase};
ghost use Rattle.phases.specs.Shown.{phase_meant};

pub mod number;

use crate::number::Phase;
use records::bytes::{Bytes, Room, byte_at, part, record_at, rooms};
use records::entry::Entry;
use records::heading::Heading;
use records::name::are_same;

// Whether a record is a heading before and the same after but for its counts.
#[tactic(auto, unfolding(disk::specs::Phase::only_counts))]
fn is_recount(before: &[u8], after: &[u8]) -> bool
    ensures { result ≡ only_counts before.now after.now }
{
    let front = Bytes(Heading::NAMED);
    byte_at(before, Room::KIND) == Heading::KIND
        && are_same(part(before, 0, front), part(after, 0, front))
        && are_same(
            part(before, Heading::REST, Bytes(before.len())),
            part(after, Heading::REST, Bytes(after.len())),
        )
}

// The phase of a record by what it holds before and after.
#[tactic(auto, unfolding(disk::specs::Phase::phase_of))]
fn phase_of(before: &[u8], after: &[u8]) -> Phase
    ensures { phase_meant result ≡ phase_of before.now after.now }
{
    if are_same(before, after) {
        return Phase::Same;
    }
    match (byte_at(before, Room::KIND), byte_at(after, Room::KIND)) {
        (Entry::KIND, _) | (_, Entry::KIND) => Phase::Entry,
        (Room::FREE, _) => Phase::First,
        (_, Room::FREE) => Phase::Last,
        _ if is_recount(before, after) => Phase::Last,
        _ => Phase::Entry,
    }
}

// The phase of a record, by the tables before and after; the same for tables of two lengths, and past the last record.
#[tactic(auto, unfolding(disk::specs::Phase::phase))]
pub fn phase(before: &[u8], after: &[u8], room: Room) -> Phase
    ensures { phase_meant result ≡ phase before.now after.now room.0 }
{
    if before.len() == after.len() && room.0 < rooms(before).0 {
        phase_of(record_at(before, room), record_at(after, room))
    } else {
        Phase::Same
    }
}
