// WRS*: the text of a medium file rewritten, so that every link to it sees the new text.
ghost use Rattle.std.specs.Prelude.{◌≡◌, ◌≤◌, ◌<◌, length};
ghost use Rattle.paper.specs.Effect.{rewriting, rewrite_at, rewrite_plan, no_room_for};
ghost use Rattle.paper.specs.Record.{byte};
ghost use Rattle.paper.specs.Layout.{boxed};
ghost use Rattle.paper.specs.Table.{rooms, rec};
ghost use Rattle.words.specs.Place.{word_at};
ghost use Rattle.walk.specs.Shown.{meant};
ghost use Rattle.answers.specs.Shown.{place_meant, answer_of};
ghost use Rattle.elephant.specs.Done.{Fit, Filed, Tried, Did};

use crate::place::Chain;
use answers::number::Number;
use answers::{Answer, Place, Refusal};
use effects::rooms::{free_rooms, text_rooms};
use effects::stage::{clear_texts, put, put_texts};
use records::block::blocks;
use records::bytes::{Bytes, Room};
use records::entry::{Entry, heading_named};
use records::heading::{Heading, is_simple, lifetime_of, rewritten, text_length};
use records::text::Text;
use scans::count_free;
use walk::state::State;

// "Room is free records plus the old text's": whether they are fewer than the new text's.
fn is_no_room(table: &[u8], heading: Room, text: &[u8]) -> bool
    ensures { result ≡ (no_room_for table.now heading.0 text.now).when }
{
    let old = blocks(text_length(table, heading)).0;
    count_free(table).0 + old < blocks(Bytes(text.len())).0
}

// "the heading marked .. with length 0, old text cleared by position, new text into the lowest records then free, heading unmarked
// with the new length": as many of the stores as are left; handed back, how many they are.
fn rewrite_text(table: &mut [u8], heading: Room, text: &[u8], left: usize) -> usize
    requires { Fit table.old × (heading.0 < rooms table.old) × (byte (rec table.old heading.0) 0 ≡ 1) × (length text.now ≤ 24000) }
    ensures { Tried table.old left (rewriting table.old heading.0 text.now) result table.new }
{
    let mut old = [0u16; Text::MOST];
    let count = blocks(text_length(table, heading)).0;
    text_rooms(table, heading, Room(count), &mut old);
    let marked = rewritten(table, heading, Heading::MARKED, Bytes(0));
    let unmarked = rewritten(table, heading, Heading::UNMARKED, Bytes(text.len()));
    let first = put(table, heading, marked, left);
    let second = clear_texts(table, &old, Room(count), first);
    let mut new = [0u16; Entry::MOST_NEW];
    let most = blocks(Bytes(text.len())).0;
    free_rooms(table, Room(most), &mut new);
    let third = put_texts(table, heading, &new, 0, text, second);
    put(table, heading, unmarked, third);
    count + most + 2
}

// The text of the file f, whose name is at this place: 14, 15, 19 and 24, and the stores.
fn rewrite_at(
    table: &mut [u8],
    text: &[u8],
    place: Place,
    f: State,
    stop: u32,
) -> Result<Answer, Refusal>
    requires { Filed table.old (meant f) × (length text.now ≤ 24000) }
    ensures { Did table.old stop
        (rewrite_at table.old text.now (place_meant place) (meant f)) (answer_of result) table.new }
{
    if f.code.inhibits_write() {
        return Err(Refusal {
            number: Number::WriteInhibited,
            place,
        });
    }
    let heading = heading_named(table, f.entry);
    if !is_simple(table, heading) {
        return Err(Refusal {
            number: Number::WrongType,
            place,
        });
    }
    if is_no_room(table, heading, text) {
        return Err(Refusal::whole(Number::NoRoom, 0));
    }
    if lifetime_of(table, heading) == Heading::LONG {
        return Err(Refusal {
            number: Number::Long,
            place,
        });
    }
    let stores = rewrite_text(table, heading, text, stop as usize);
    Ok(Answer::stored(stores as u32, stop, false))
}

// "`WRS*` decl name, with a text, rewrites an existing simple file of lifetime M"
pub(crate) fn rewrite(
    table: &mut [u8],
    line: &[u8],
    text: &[u8],
    name: usize,
    user: u32,
    stop: u32,
) -> Result<Answer, Refusal>
    requires { Fit table.old × (length line.now ≤ 256) × (length text.now ≤ 24000) }
    ensures { Did table.old stop
        (rewrite_plan boxed table.old user text.now (word_at line.now name)) (answer_of result) table.new }
{
    let chain = Chain::own(name);
    let ends = chain.to_end(table, line, 2, user)?;
    rewrite_at(table, text, chain.end(line, 2), ends.file, stop)
}
