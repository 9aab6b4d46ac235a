// Record numbers in one pass: the free records in order, and a file's text by position.
ghost use Rattle.std.specs.Prelude.{◌≡◌, ◌+◌, ◌-◌, ◌≤◌, ◌<◌, ◌%◌, get_or};
ghost use Rattle.paper.specs.Table.{rooms, rec};
ghost use Rattle.effects.specs.Listed.{free_rooms, text_rooms, text_of, Placed};

use records::bytes::{Room, is_sized, rooms};
use records::entry::Entry;
use records::text::{Text, heading_of, position_of};
use scans::next_free;

// A record's number in two bytes. A remainder, as its definition says: no conversion from `usize` takes every number.
fn short(i: usize) -> u16
    ensures { result ≡ i % 65536 }
{
    (i % 65536) as u16
}

// The record's number at a place of a list of them; past the end, 0.
pub fn room_at(rooms: &[u16], m: usize) -> Room
    ensures { result.0 ≡ get_or rooms.now m 0 }
{
    Room(rooms.get(m).copied().unwrap_or(0) as usize)
}

// So many free records, lowest first, then one past the last, and 0 in the rest of the list; by one cursor that goes on past each.
pub fn free_rooms(table: &[u8], most: Room, rooms: &mut [u16; Entry::MOST_NEW])
    ensures { rooms.new ≡ free_rooms table.now most.0 }
{
    *rooms = [0u16; Entry::MOST_NEW];
    let mut next = next_free(table, Room(0)).0;
    for m in 0..most.0.min(Entry::MOST_NEW) {
        rooms[m] = short(next);
        next = next_free(table, Room(next + 1)).0;
    }
}

// Whether record i is text of a heading.
fn is_text_of(table: &[u8], i: usize, heading: Room) -> bool
    requires { i < rooms table.now }
    ensures { result ≡ text_of heading.0 (rec table.now i) }
{
    table[i * Room::SIZE] == Text::KIND && heading_of(table, Room(i)) == heading
}

// Record i, if it is text of a heading, is put at its position, if that is one of the first `most` and none is there yet, which `none`
// says; handed back, how many of these positions are still without, of so many.
fn place_text(
    table: &[u8],
    i: usize,
    heading: Room,
    none: u16,
    most: usize,
    left: usize,
    places: &mut [u16; Text::MOST],
) -> usize
    requires { (i < rooms table.now) × (none ≡ rooms table.now) × (most ≤ 1000)
        × Placed table.now heading.0 most places.old left i }
    ensures { Placed table.now heading.0 most places.new result (i + 1) }
{
    if !is_text_of(table, i, heading) {
        return left;
    }
    let p = position_of(table, Room(i)).0;
    if most <= p || places[p] != none {
        return left;
    }
    places[p] = short(i);
    left - 1
}

// The text records of a heading at the first positions, so many, and one past the last at the others, as in `text_rooms`; no record is read past
// those that are found, and none of a table of no fit size.
pub fn text_rooms(table: &[u8], heading: Room, most: Room, places: &mut [u16; Text::MOST])
    ensures { places.new ≡ text_rooms table.now heading.0 most.0 }
{
    let none = short(rooms(table).0);
    *places = [none; Text::MOST];
    if !is_sized(table) {
        return;
    }
    let last = most.0.min(Text::MOST);
    let mut left = last;
    for i in 0..rooms(table).0 {
        if left == 0 {
            return;
        }
        left = place_text(table, i, heading, none, last, left, places);
    }
}
