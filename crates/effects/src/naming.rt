// The entries that name a heading, cleared.
ghost use Rattle.std.specs.Prelude.{cond, [], ◌∷◌};
ghost use Rattle.paper.specs.Record.{names};
ghost use Rattle.paper.specs.Store.{clear, clears};
ghost use Rattle.paper.specs.Table.{rooms, rec};
ghost use Rattle.effects.specs.Stage.{Made};

use crate::stage::put;
use records::bytes::{Room, rooms};
use records::entry::names;

// A record cleared, if it is an entry that names the heading.
fn clear_if_naming(table: &mut [u8], heading: Room, room: Room, left: usize) -> usize
    ensures { Made table.old table.new left result
        (cond (names heading.0 (rec table.old room.0)) (clear room.0 ∷ []) []) }
{
    if names(table, room, heading) {
        put(table, room, [0u8; Room::SIZE], left)
    } else {
        left
    }
}

// "then every entry naming it, by record number"
pub fn clear_naming(table: &mut [u8], heading: Room, left: usize) -> usize
    ensures { Made table.old table.new left result
        (clears (λ i. names heading.0 (rec table.old i)) (rooms table.old)) }
{
    let mut rest = left;
    for i in 0..rooms(table).0 {
        rest = clear_if_naming(table, heading, Room(i), rest);
    }
    rest
}
