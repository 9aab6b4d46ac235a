// Text: "1 bytes held, 1..24; 2-3 heading; 4-5 position; 8-31 the bytes, zero after those held".
ghost use Rattle.std.specs.Prelude.{◌≡◌, ◌<◌, length, take};
ghost use Rattle.paper.specs.Record.{bytes_held, heading_of, position, held, text_record};
ghost use Rattle.paper.specs.Table.{rec};
ghost use Rattle.paper.specs.Block.{block};

use crate::block::block_at;
use crate::bytes::{Bytes, Room, byte_of, part, record_at, two_bytes, two_of};
use crate::store::copy_in;

#[derive(Clone, Copy)]
pub struct Text {
    pub heading: Room,
    pub position: Room,
}

impl Text {
    pub const KIND: u8 = 3;

    pub const HELD: usize = 1;

    pub const HEADING: usize = 2;

    pub const POSITION: usize = 4;

    pub const BYTES: usize = 8;
    // The bytes between position and bytes, which are zero.
    pub const GAP: usize = 6;

    pub const GAP_SIZE: usize = 2;
    // "bytes held, 1..24"
    pub const MOST_HELD: usize = 24;
    // "24,000 takes 1,000"
    pub const MOST: usize = 1000;

    // The record of this text, with at most 24 bytes.
    pub fn laid(self, bytes: &[u8]) -> [u8; Room::SIZE]
        ensures { result ≡ text_record self.heading.0 self.position.0 (take 24 bytes.now) }
    {
        let held = part(bytes, 0, Bytes(Text::MOST_HELD));
        let mut r = [0u8; Room::SIZE];
        r[Room::KIND] = Text::KIND;
        r[Text::HELD] = held.len() as u8;
        copy_in(&mut r, Text::HEADING, &two_bytes(self.heading.0));
        copy_in(&mut r, Text::POSITION, &two_bytes(self.position.0));
        if held.len() == Text::MOST_HELD {
            r[Text::BYTES..Room::SIZE].copy_from_slice(held);
        } else {
            copy_in(&mut r, Text::BYTES, held);
        }
        r
    }

    // The record of this text, with its block of a lent text.
    pub fn of_text(self, text: &[u8]) -> [u8; Room::SIZE]
        ensures { result ≡ text_record self.heading.0 self.position.0 (block text.now self.position.0) }
    {
        self.laid(block_at(text, self.position))
    }
}

fn bytes_held(table: &[u8], room: Room) -> Bytes
    ensures { (result.0 ≡ bytes_held (rec table.now room.0)) × (result.0 < 256) }
{
    Bytes(usize::from(byte_of(table, room, Text::HELD)))
}

pub fn heading_of(table: &[u8], room: Room) -> Room
    ensures { (result.0 ≡ heading_of (rec table.now room.0)) × (result.0 < 65536) }
{
    Room(usize::from(two_of(table, room, Text::HEADING)))
}

pub fn position_of(table: &[u8], room: Room) -> Room
    ensures { (result.0 ≡ position (rec table.now room.0)) × (result.0 < 65536) }
{
    Room(usize::from(two_of(table, room, Text::POSITION)))
}

// The bytes that a text record holds, as the stretch of the table that they are.
#[tactic(auto, unfolding(paper::specs::Record::held))]
pub fn held_at(table: &[u8], room: Room) -> &[u8]
    ensures { result.now ≡ held (rec table.now room.0) }
{
    part(record_at(table, room), Text::BYTES, bytes_held(table, room))
}
