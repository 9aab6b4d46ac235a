// A new entry at its end: what it meets, the number that refuses it, its store, the counts and the settling after it.
#![tactic(auto)]

ghost use Rattle.std.specs.Prelude.{◌&&◌, not, ◌≡◌};
ghost use Rattle.paper.specs.Check.{verdict};
ghost use Rattle.records.specs.Shown.{holder_shown};
ghost use Rattle.answers.specs.Shown.{place_meant, told, verdict_shown};
ghost use Rattle.effects.specs.Stage.{Made};
ghost use Rattle.placing.specs.Placing.{last_by, file_of, lost_file, met, full_by, peopled_by, losing_by, entry_checks, lost_texts, entry_stores};

use answers::number::Number;
use answers::{Place, Refusal};
use effects::counts::{Moves, recount};
use effects::rooms::text_rooms;
use effects::stage::{clear_file, put};
use records::block::blocks;
use records::bytes::Room;
use records::entry::{Entry, Holder, heading_named};
use records::heading::{held_count, is_directory, named_count, text_length};
use records::text::Text;
use scans::{has_fewer_free, is_full};

// A file: its heading, and how many text records it has.
#[derive(Clone, Copy)]
pub struct File {
    pub heading: Room,
    pub count: Room,
}

// What a new entry meets: the record it goes to; the file of the entry that bears its name, if one is displaced there, and the same file if it
// is lost with that entry; and the headings whose counts move.
#[derive(Clone, Copy)]
pub struct Meets {
    pub room: Room,
    pub displaced: Option<File>,
    pub lost: Option<File>,
    pub moves: Moves,
}

// Whether one entry alone names a heading.
pub fn is_last(table: &[u8], heading: Room) -> bool
    ensures { result ≡ last_by table.now heading.0 }
{
    named_count(table, heading).0 == 1
}

// The file of a heading.
fn file_of(table: &[u8], heading: Room) -> File
    ensures { result ≡ file_of table.now heading.0 }
{
    let count = blocks(text_length(table, heading));
    File { heading, count }
}

// .. where no entry names it once one that names another heading is laid in its entry's place.
fn lost_file(table: &[u8], heading: Room, named: Room) -> Option<File>
    ensures { result ≡ lost_file table.now heading.0 named.0 }
{
    if named.0 == heading.0 || !is_last(table, heading) {
        return None;
    }
    Some(file_of(table, heading))
}

// What an entry in this place that names a heading meets, where its name was found or a free record taken.
pub fn meet(table: &[u8], found: Option<Room>, holder: Holder, named: Room, free: Room) -> Meets
    ensures { result ≡ met table.now found (holder_shown holder) named.0 free.0 }
{
    let Some(room) = found else {
        return Meets {
            room: free,
            displaced: None,
            lost: None,
            moves: Moves {
                named: Some(named),
                lost: None,
                more: Some(holder.heading),
                less: None,
            },
        };
    };
    let heading = heading_named(table, room);
    Meets {
        room,
        displaced: Some(file_of(table, heading)),
        lost: lost_file(table, heading, named),
        moves: Moves {
            named: Some(named),
            lost: Some(heading),
            more: None,
            less: None,
        },
    }
}

// Whether a directory, by its count, or a base list, which has none, is full.
fn is_crowded(table: &[u8], holder: Holder) -> bool
    ensures { result ≡ full_by table.now (holder_shown holder) }
{
    if holder.heading.0 == Holder::BASE {
        is_full(table, holder)
    } else {
        Entry::MOST_IN_DIRECTORY <= held_count(table, holder.heading).0
    }
}

// "directory or base list full, nothing displaced"
fn is_full_up(table: &[u8], holder: Holder, displaced: bool) -> bool
    ensures { result ≡ (not displaced && full_by table.now (holder_shown holder)) }
{
    !displaced && is_crowded(table, holder)
}

// "a directory with entries"
pub fn is_directory_peopled(table: &[u8], heading: Room) -> bool
    ensures { result ≡ peopled_by table.now heading.0 }
{
    is_directory(table, heading) && 0 < held_count(table, heading).0
}

// "file losing its last entry is a directory with entries"
fn is_losing(table: &[u8], meets: Meets) -> bool
    ensures { result ≡ losing_by table.now meets.lost }
{
    match meets.lost {
        Some(file) => is_directory_peopled(table, file.heading),
        None => false,
    }
}

// 17, 18 and 19 in number order.
#[tactic(auto, unfolding(paper::specs::Check::verdict))]
pub fn check_entry(
    table: &[u8],
    holder: Holder,
    meets: Meets,
    needed: usize,
    place: Place,
) -> Result<(), Refusal>
    ensures { told result ≡ verdict_shown (verdict (entry_checks table.now (place_meant place) (holder_shown holder) meets needed)) }
{
    if is_full_up(table, holder, meets.displaced.is_some()) {
        return Err(Refusal {
            number: Number::Full,
            place,
        });
    }
    if is_losing(table, meets) {
        return Err(Refusal {
            number: Number::Peopled,
            place,
        });
    }
    if has_fewer_free(table, needed) {
        return Err(Refusal::whole(Number::NoRoom, 0));
    }
    Ok(())
}

// The text records, by position, of the file that is lost; where none is, none is looked for.
pub fn lost_texts(table: &[u8], meets: Meets, texts: &mut [u16; Text::MOST])
    ensures { texts.new ≡ lost_texts table.now meets.lost texts.old }
{
    if let Some(file) = meets.lost {
        text_rooms(table, file.heading, file.count, texts);
    }
}

// The entry's store, then the counts that it moves, and then the file lost with the entry that it displaces: its text records are
// listed in `texts`.
pub fn place_entry(
    table: &mut [u8],
    entry: [u8; Room::SIZE],
    meets: Meets,
    texts: &[u16; Text::MOST],
    left: usize,
) -> usize
    ensures { Made table.old table.new left result (entry_stores table.old meets entry texts.now) }
{
    let laid = put(table, meets.room, entry, left);
    let rest = recount(table, meets.moves, laid);
    match meets.lost {
        Some(file) => clear_file(table, file.heading, texts, file.count, rest),
        None => rest,
    }
}
