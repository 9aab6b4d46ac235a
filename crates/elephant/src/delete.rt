// DEL at the end of a name: an entry cleared, the counts that this moves and then its file, if no other entry names it.
ghost use Rattle.std.specs.Prelude.{◌∷◌, ◌++◌, ◌≡◌, ◌<◌};
ghost use Rattle.paper.specs.Effect.{freed, del_at};
ghost use Rattle.paper.specs.Record.{byte, holder_of, blank};
ghost use Rattle.paper.specs.Store.{clear};
ghost use Rattle.paper.specs.Table.{rooms, rec, lay};
ghost use Rattle.effects.specs.Counts.{count_stores};
ghost use Rattle.effects.specs.Stage.{Made};
ghost use Rattle.placing.specs.Placing.{gone};
ghost use Rattle.answers.specs.Shown.{place_meant};
ghost use Rattle.walk.specs.Shown.{meant};
ghost use Rattle.elephant.specs.Done.{Fit, Filed};
ghost use Rattle.elephant.specs.Removed.{Spent, Came};

use crate::removal::{Ended, spent};
use answers::number::Number;
use answers::{Place, Refusal};
use effects::counts::{Moves, count_moves, recount};
use effects::rooms::text_rooms;
use effects::stage::{clear_file, put};
use placing::{is_directory_peopled, is_last};
use records::block::blocks;
use records::bytes::Room;
use records::entry::{heading_named, holder_of};
use records::heading::text_length;
use records::text::Text;
use walk::end::Ends;

// The counts that move where an entry of a heading is cleared: the file's and, if it has one, its directory's.
fn gone(table: &[u8], entry: Room, heading: Room) -> Moves
    ensures { result ≡ gone (holder_of (rec table.now entry.0)) heading.0 }
{
    Moves {
        named: None,
        lost: Some(heading),
        more: None,
        less: Some(holder_of(table, entry)),
    }
}

// An entry cleared, and the counts that this moves.
fn take_out(table: &mut [u8], entry: Room, moves: Moves, left: usize) -> usize
    ensures { Made table.old table.new left result
        (clear entry.0 ∷ count_stores (lay table.old entry.0 blank) moves) }
{
    let rest = put(table, entry, [0u8; Room::SIZE], left);
    recount(table, moves, rest)
}

// An entry of a heading cleared, as many of the stores as are left.
fn clear_entry(table: &mut [u8], entry: Room, heading: Room, left: usize) -> Result<usize, Ended>
    ensures { Spent table.old left
        (clear entry.0 ∷ count_stores (lay table.old entry.0 blank)
        (gone (holder_of (rec table.old entry.0)) heading.0)) result table.new }
{
    let moves = gone(table, entry, heading);
    let counts = count_moves(table, moves);
    take_out(table, entry, moves, left);
    spent(left, counts + 1)
}

// The same, and its file cleared.
fn clear_both(table: &mut [u8], entry: Room, heading: Room, left: usize) -> Result<usize, Ended>
    requires { Fit table.old × (heading.0 < rooms table.old) × (byte (rec table.old heading.0) 0 ≡ 1) }
    ensures { Spent table.old left
        (clear entry.0 ∷ count_stores (lay table.old entry.0 blank)
        (gone (holder_of (rec table.old entry.0)) heading.0) ++ freed table.old heading.0) result table.new }
{
    let mut rooms = [0u16; Text::MOST];
    let count = blocks(text_length(table, heading)).0;
    text_rooms(table, heading, Room(count), &mut rooms);
    let moves = gone(table, entry, heading);
    let counts = count_moves(table, moves);
    let rest = take_out(table, entry, moves, left);
    clear_file(table, heading, &rooms, Room(count), rest);
    spent(left, counts + (count + 2))
}

// The entry of the file in its directory and, if no other entry names it, the file: 14 and 18, and as many of the stores as are left.
pub(crate) fn delete_at(
    table: &mut [u8],
    ends: Ends,
    place: Place,
    left: usize,
) -> Result<usize, Ended>
    requires { Filed table.old (meant ends.file) }
    ensures { Came table.old left (del_at table.old (place_meant place) (meant ends.directory) (meant ends.file)) result table.new }
{
    let Ends { directory, file } = ends;
    if directory.code.inhibits_write() {
        return Err(Ended {
            refusal: Refusal {
                number: Number::WriteInhibited,
                place,
            },
            left,
        });
    }
    let entry = file.entry;
    let heading = heading_named(table, entry);
    if !is_last(table, heading) {
        return clear_entry(table, entry, heading, left);
    }
    if is_directory_peopled(table, heading) {
        return Err(Ended {
            refusal: Refusal {
                number: Number::Peopled,
                place,
            },
            left,
        });
    }
    clear_both(table, entry, heading, left)
}
