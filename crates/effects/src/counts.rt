// The counts in the headings, corrected after an entry's store: those of the at most two headings that it moves, read and stored again.
ghost use Rattle.std.specs.Prelude.{◌≡◌, ◌≤◌, ◌<◌, min, max};
ghost use Rattle.paper.specs.Table.{rooms};
ghost use Rattle.effects.specs.Counts.{number_of, one_of, other_of, count_after, turned, moved, count_store, count_stores, count_moves};
ghost use Rattle.effects.specs.Stage.{Made};

use crate::stage::put;
use records::bytes::{Room, rooms};
use records::heading::{held_count, named_count, recounted};

// The headings whose counts an entry's store moves: the one that it names, the one that an entry named there before it, and the
// directory that holds one entry more, or one less.
#[derive(Clone, Copy)]
pub struct Moves {
    pub named: Option<Room>,
    pub lost: Option<Room>,
    pub more: Option<Room>,
    pub less: Option<Room>,
}

// The number of a heading; where there is none, one that no table's record has.
fn number_of(heading: Option<Room>) -> usize
    ensures { result ≡ number_of heading }
{
    heading.map_or(65535, |room| room.0)
}

// The two headings whose counts move, the lower one first; where there is but one, it is both.
fn both_of(moves: Moves) -> (Room, Room)
    ensures { (result.0.0 ≡ min (one_of moves) (other_of moves)) × (result.1.0 ≡ max (one_of moves) (other_of moves)) }
{
    let one = number_of(moves.named).min(number_of(moves.less));
    let other = number_of(moves.lost).min(number_of(moves.more));
    (Room(one.min(other)), Room(one.max(other)))
}

// The count of a heading, where one has one more and one has one less.
fn count_after(count: Room, heading: Room, up: Option<Room>, down: Option<Room>) -> Room
    requires { count.0 < 65536 }
    ensures { result.0 ≡ count_after count.0 heading.0 (number_of up) (number_of down) }
{
    let grown = count.0 + usize::from(heading.0 == number_of(up));
    Room(grown.saturating_sub(usize::from(heading.0 == number_of(down))))
}

// Whether that is another count.
fn is_turned(heading: Room, up: Option<Room>, down: Option<Room>) -> bool
    ensures { result ≡ turned heading.0 (number_of up) (number_of down) }
{
    (heading.0 == number_of(up)) != (heading.0 == number_of(down))
}

// Whether a count of a heading moves, in a table of so many records.
#[tactic(auto, unfolding(crate::specs::Counts::moved))]
fn is_moved(most: Room, moves: Moves, heading: Room) -> bool
    ensures { result ≡ moved most.0 moves heading.0 }
{
    heading.0 < most.0
        && (is_turned(heading, moves.named, moves.lost)
            || is_turned(heading, moves.more, moves.less))
}

// "one store each": a heading's, if a count of it moves.
fn recount_one(table: &mut [u8], moves: Moves, heading: Room, left: usize) -> usize
    ensures { Made table.old table.new left result (count_store table.old moves heading.0) }
{
    if !is_moved(rooms(table), moves, heading) {
        return left;
    }
    let named = count_after(
        named_count(table, heading),
        heading,
        moves.named,
        moves.lost,
    );
    let held = count_after(held_count(table, heading), heading, moves.more, moves.less);
    let bytes = recounted(table, heading, named, held);
    put(table, heading, bytes, left)
}

// "by record number": the lower heading's and then, if it is another, the higher one's.
pub fn recount(table: &mut [u8], moves: Moves, left: usize) -> usize
    ensures { Made table.old table.new left result (count_stores table.old moves) }
{
    let (low, high) = both_of(moves);
    let rest = recount_one(table, moves, low, left);
    if low.0 == high.0 {
        return rest;
    }
    recount_one(table, moves, high, rest)
}

// How many stores these are.
pub fn count_moves(table: &[u8], moves: Moves) -> usize
    ensures { (result ≡ count_moves (rooms table.now) moves) × (result ≤ 2) }
{
    let most = rooms(table);
    let (low, high) = both_of(moves);
    let first = is_moved(most, moves, low);
    let second = low.0 != high.0 && is_moved(most, moves, high);
    usize::from(first) + usize::from(second)
}
