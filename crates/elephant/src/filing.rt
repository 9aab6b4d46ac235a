// A new entry, and before it a new file where it names one: end checks 16 to 19 and those after them, the stores, the answer.
ghost use Rattle.std.specs.Prelude.{◌≡◌, ◌≤◌, length, IfSome};
ghost use Rattle.paper.specs.Check.{verdict};
ghost use Rattle.paper.specs.Table.{rooms};
ghost use Rattle.records.specs.Shown.{holder_shown};
ghost use Rattle.words.specs.Shown.{begin_meant};
ghost use Rattle.answers.specs.Shown.{place_meant, told, verdict_shown, answer_of};
ghost use Rattle.effects.specs.Stage.{Made};
ghost use Rattle.elephant.specs.Done.{Did};
ghost use Rattle.elephant.specs.Filing.{file_count, file_stores, needed_by, stores_by, making_of, Ready, taken_by, late_checks, all_checks, ending};

use answers::number::Number;
use answers::{Answer, Place, Refusal};
use effects::counts::count_moves;
use effects::rooms::room_at;
use effects::stage::{put, put_texts};
use placing::{Meets, check_entry, lost_texts, meet, place_entry};
use records::block::blocks;
use records::bytes::{Bytes, Room};
use records::code::Code;
use records::entry::{Entry, Holder};
use records::text::Text;
use scans::find;
use walk::state::State;
use words::begin::Begin;

// How many stores a new file has, if there is one.
fn count_file(heading: Option<[u8; Room::SIZE]>, text: &[u8]) -> usize
    requires { length text.now ≤ 24000 }
    ensures { result ≡ file_count heading text.now }
{
    match heading {
        Some(_) => blocks(Bytes(text.len())).0 + 1,
        None => 0,
    }
}

// "heading, text by position"
fn put_file(
    table: &mut [u8],
    heading: Option<[u8; Room::SIZE]>,
    rooms: &[u16; Entry::MOST_NEW],
    text: &[u8],
    left: usize,
) -> usize
    ensures { Made table.old table.new left result (file_stores heading rooms.now text.now) }
{
    let Some(bytes) = heading else {
        return left;
    };
    let room = room_at(rooms, 0);
    let rest = put(table, room, bytes, left);
    put_texts(table, room, rooms, 1, text, rest)
}

// How many free records are needed.
fn needed(first: usize, displaced: bool) -> usize
    requires { first ≤ 1001 }
    ensures { result ≡ needed_by first displaced }
{
    if displaced { first } else { first + 1 }
}

// "A give never displaces."
fn is_taken(to: Begin, displaced: bool) -> bool
    ensures { result ≡ taken_by to displaced }
{
    displaced && matches!(to, Begin::Give(_))
}

// 16, "where the link is taken"; then 17 to 19; then what refuses after them.
fn check(
    table: &[u8],
    to: Begin,
    holder: Holder,
    meets: Meets,
    needed: usize,
    place: Place,
    late: Result<(), Refusal>,
) -> Result<(), Refusal>
    ensures { told result ≡ verdict_shown (verdict
        (all_checks table.now to (place_meant place) (holder_shown holder) meets needed late)) }
{
    if is_taken(to, meets.displaced.is_some()) {
        return Err(Refusal {
            number: Number::Borne,
            place,
        });
    }
    check_entry(table, holder, meets, needed, place)?;
    late
}

// How many stores there are in all, those of the counts among them.
fn count_stores(table: &[u8], first: usize, meets: Meets) -> u32
    requires { (first ≤ 1001) × IfSome meets.lost (λ f. f.count.0 ≤ 1000) }
    ensures { result ≡ stores_by (rooms table.now) first meets }
{
    let counts = count_moves(table, meets.moves);
    let rest = match meets.lost {
        Some(file) => file.count.0 + 2,
        None => 1,
    };
    (first + (counts + rest)) as u32
}

// An entry to be made: the directory that it stands in, its code, the heading that it names, the place that its refusals give, and how
// its name begins.
#[derive(Clone, Copy)]
pub(crate) struct Making {
    pub directory: State,
    pub code: Code,
    pub named: Room,
    pub place: Place,
    pub to: Begin,
}

// The entry under this name, and before it the new file if there is one, whose heading this is, on the free records in `rooms`. The last
// check is made by the caller.
pub(crate) fn make(
    table: &mut [u8],
    rooms: &[u16; Entry::MOST_NEW],
    making: Making,
    name: &[u8],
    heading: Option<[u8; Room::SIZE]>,
    text: &[u8],
    late: Result<(), Refusal>,
    stop: u32,
) -> Result<Answer, Refusal>
    requires { Ready table.old rooms.now name.now text.now making heading }
    ensures { Did table.old stop
        (ending table.old (begin_meant making.to) (making_of table.old making name.now heading text.now) (late_checks late))
        (answer_of result) table.new }
{
    let holder = making.directory.holder;
    let first = count_file(heading, text);
    let found = find(table, holder, name);
    let meets = meet(table, found, holder, making.named, room_at(rooms, first));
    let displaced = meets.displaced.is_some();
    let needs = needed(first, displaced);
    check(table, making.to, holder, meets, needs, making.place, late)?;
    let entry = Entry {
        code: making.code,
        holder,
        heading: making.named,
    }
    .laid(name);
    let stores = count_stores(table, first, meets);
    let mut texts = [0u16; Text::MOST];
    lost_texts(table, meets, &mut texts);
    let rest = put_file(table, heading, rooms, text, stop as usize);
    place_entry(table, entry, meets, &texts, rest);
    Ok(Answer::stored(stores, stop, displaced))
}
