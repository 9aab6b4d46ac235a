// Stages of stores. Each makes exactly as many of its stores as are still allowed, and answers how many are allowed after it.
ghost use Rattle.std.specs.Prelude.{[], ◌∷◌, ◌≡◌, ◌<◌, length};
ghost use Rattle.paper.specs.Block.{blocks, block};
ghost use Rattle.paper.specs.Record.{text_record};
ghost use Rattle.paper.specs.Store.{puts};
ghost use Rattle.effects.specs.Stage.{Made, text_front, text_store, text_stores, clear_texts, clear_stores};

use crate::rooms::room_at;
use records::block::blocks;
use records::bytes::{Bytes, Room, two_bytes};
use records::entry::Entry;
use records::store::store;
use records::text::Text;

// One record laid.
pub fn put(table: &mut [u8], room: Room, bytes: [u8; Room::SIZE], left: usize) -> usize
    ensures { Made table.old table.new left result (puts room.0 bytes ∷ []) }
{
    if left == 0 {
        return 0;
    }
    store(table, room, bytes);
    left - 1
}

// The first eight bytes of a text record that holds a whole block.
fn text_front(heading: Room, p: usize) -> [u8; Text::BYTES]
    ensures { result ≡ text_front heading.0 p }
{
    let [low, high] = two_bytes(heading.0);
    let [first, last] = two_bytes(p);
    [Text::KIND, 24, low, high, first, last, 0, 0]
}

// The text record of a heading at a position of a text; of a whole block two copies of a known length, a few moves of the machine.
fn text_at(heading: Room, p: usize, text: &[u8]) -> [u8; Room::SIZE]
    ensures { result ≡ text_record heading.0 p (block text.now p) }
{
    if text.len() / Text::MOST_HELD <= p {
        let position = Room(p);
        return Text { heading, position }.of_text(text);
    }
    let at = p * Text::MOST_HELD;
    let mut r = [0u8; Room::SIZE];
    r[..Text::BYTES].copy_from_slice(&text_front(heading, p));
    r[Text::BYTES..].copy_from_slice(&text[at..at + Text::MOST_HELD]);
    r
}

// The text of a heading at a position, on the record listed in `rooms` as far behind the first of its text.
fn put_text(
    table: &mut [u8],
    heading: Room,
    rooms: &[u16; Entry::MOST_NEW],
    first: u16,
    text: &[u8],
    p: usize,
    left: usize,
) -> usize
    requires { p < blocks (length text.now) }
    ensures { Made table.old table.new left result
        (text_store heading.0 rooms.now first text.now p ∷ []) }
{
    let room = room_at(rooms, p + first as usize);
    put(table, room, text_at(heading, p, text), left)
}

// The text of a heading by position, on the records listed in `rooms`, of which this is its first.
pub fn put_texts(
    table: &mut [u8],
    heading: Room,
    rooms: &[u16; Entry::MOST_NEW],
    first: u16,
    text: &[u8],
    left: usize,
) -> usize
    ensures { Made table.old table.new left result
        (text_stores heading.0 rooms.now first text.now) }
{
    let mut rest = left;
    for p in 0..blocks(Bytes(text.len())).0 {
        rest = put_text(table, heading, rooms, first, text, p, rest);
    }
    rest
}

// So many text records cleared by position, which are listed in `rooms`.
pub fn clear_texts(table: &mut [u8], rooms: &[u16; Text::MOST], count: Room, left: usize) -> usize
    ensures { Made table.old table.new left result (clear_texts rooms.now count.0) }
{
    let mut rest = left;
    for p in 0..count.0 {
        rest = put(table, room_at(rooms, p), [0u8; Room::SIZE], rest);
    }
    rest
}

// A file cleared: its heading, then so many text records by position, which are listed in `rooms`.
pub fn clear_file(
    table: &mut [u8],
    heading: Room,
    rooms: &[u16; Text::MOST],
    count: Room,
    left: usize,
) -> usize
    ensures { Made table.old table.new left result (clear_stores heading.0 rooms.now count.0) }
{
    let rest = put(table, heading, [0u8; Room::SIZE], left);
    clear_texts(table, rooms, count, rest)
}
