// DST at the end of a name: a heading cleared, its text, every entry that names it, and then the counts that this made untrue.
ghost use Rattle.std.specs.Prelude.{◌≡◌, ◌<◌};
ghost use Rattle.paper.specs.Effect.{with_counts, destroying, dst_at};
ghost use Rattle.paper.specs.Record.{byte};
ghost use Rattle.paper.specs.Table.{rooms, rec};
ghost use Rattle.answers.specs.Shown.{place_meant};
ghost use Rattle.walk.specs.Shown.{meant};
ghost use Rattle.elephant.specs.Done.{Fit, Filed};
ghost use Rattle.elephant.specs.Removed.{Spent, Came};

use crate::removal::{Ended, spent};
use answers::number::Number;
use answers::{Place, Refusal};
use effects::naming::clear_naming;
use effects::recount::recount_all;
use effects::rooms::text_rooms;
use effects::stage::clear_file;
use placing::is_directory_peopled;
use records::block::blocks;
use records::bytes::Room;
use records::entry::heading_named;
use records::heading::{named_count, text_length};
use records::text::Text;
use walk::state::State;

// "heading cleared, text by position, then every entry naming it, by record number, then the holders' counts": as many as are left. A heading
// says how many entries name it.
fn clear_paths(table: &mut [u8], heading: Room, left: usize) -> Result<usize, Ended>
    requires { Fit table.old × (heading.0 < rooms table.old) × (byte (rec table.old heading.0) 0 ≡ 1) }
    ensures { Spent table.old left
        (with_counts table.old (destroying table.old heading.0)) result table.new }
{
    let mut rooms = [0u16; Text::MOST];
    let count = blocks(text_length(table, heading)).0;
    text_rooms(table, heading, Room(count), &mut rooms);
    let entries = named_count(table, heading).0;
    let after_file = clear_file(table, heading, &rooms, Room(count), left);
    let after_entries = clear_naming(table, heading, after_file);
    let counts = recount_all(table, after_entries);
    spent(left, counts + (entries + (count + 1)))
}

// Every path to the file f, and the file: 14 and 18, and as many of the stores as are left.
pub(crate) fn destroy_at(
    table: &mut [u8],
    f: State,
    place: Place,
    left: usize,
) -> Result<usize, Ended>
    requires { Filed table.old (meant f) }
    ensures { Came table.old left (dst_at table.old (place_meant place) (meant f)) result table.new }
{
    if f.code.inhibits_write() {
        return Err(Ended {
            refusal: Refusal {
                number: Number::WriteInhibited,
                place,
            },
            left,
        });
    }
    let heading = heading_named(table, f.entry);
    if is_directory_peopled(table, heading) {
        return Err(Ended {
            refusal: Refusal {
                number: Number::Peopled,
                place,
            },
            left,
        });
    }
    clear_paths(table, heading, left)
}
