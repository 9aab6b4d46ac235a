// Headings: "1 type (0 directory, 1 simple); 2 level (0 U, 1 P, 2 A, 3 S); 3 code 0..7; 4 lifetime (1 M, 2 L); 10-11 text length".
// Document 02: "marked (byte 5 is 1)".
ghost use Rattle.std.specs.Prelude.{◌≡◌, ◌&&◌, ◌<◌, eqb};
ghost use Rattle.paper.specs.Record.{is_kind, heading_type, level, heading_code, lifetime, text_length, mark, marked, directory, simple, heading_record, rewritten, padded};
ghost use Rattle.paper.specs.Table.{rec};
ghost use Rattle.paper.specs.Effect.{recoded};
ghost use Rattle.records.specs.Counts.{named_count, held_count, counted};

use crate::bytes::{Bytes, Room, byte_of, kind_of, two_bytes, two_of};
use crate::code::Code;
use crate::store::{copy_in, whole};

#[derive(Clone, Copy)]
pub struct Heading {
    pub ty: u8,
    pub level: u8,
    pub code: Code,
    pub lifetime: u8,
    pub length: Bytes,
}

impl Heading {
    pub const KIND: u8 = 1;

    // "1 type (0 directory, 1 simple)"
    pub const DIRECTORY: u8 = 0;

    pub const SIMPLE: u8 = 1;
    // "2 level (0 U, 1 P, 2 A, 3 S)"
    pub const LAST_LEVEL: u8 = 3;
    // "4 lifetime (1 M, 2 L)"
    pub const MEDIUM: u8 = 1;

    pub const LONG: u8 = 2;

    pub const TYPE: usize = 1;

    pub const LEVEL: usize = 2;

    pub const CODE: usize = 3;

    pub const LIFETIME: usize = 4;

    pub const MARK: usize = 5;

    pub const LENGTH: usize = 10;
    // "marked (byte 5 is 1)"
    pub const UNMARKED: u8 = 0;

    pub const MARKED: u8 = 1;
    // "how many entries name it (bytes 12-13) and, for a directory, how many it holds (bytes 14-15)"
    pub const NAMED: usize = 12;

    pub const HELD: usize = 14;
    // The bytes between mark and length and those past the counts, which are zero.
    pub const GAP: usize = 6;

    pub const GAP_SIZE: usize = 4;

    pub const REST: usize = 16;

    pub const REST_SIZE: usize = 16;
    // "a simple file of length n (at most 24,000)"
    pub const MOST_LENGTH: usize = 24000;

    // The record of this heading.
    #[tactic(auto, unfolding(paper::specs::Record::heading_record, paper::specs::Number::bytes_of))]
    pub fn laid(self) -> [u8; Room::SIZE]
        ensures { result ≡ heading_record self.ty self.level self.code.0 self.lifetime self.length.0 }
    {
        let mut r = [0u8; Room::SIZE];
        r[Room::KIND] = Heading::KIND;
        r[Heading::TYPE] = self.ty;
        r[Heading::LEVEL] = self.level;
        r[Heading::CODE] = self.code.0;
        r[Heading::LIFETIME] = self.lifetime;
        copy_in(&mut r, Heading::LENGTH, &two_bytes(self.length.0));
        r
    }
}

pub fn type_of(table: &[u8], room: Room) -> u8
    ensures { result ≡ heading_type (rec table.now room.0) }
{
    byte_of(table, room, Heading::TYPE)
}

pub fn level_of(table: &[u8], room: Room) -> u8
    ensures { result ≡ level (rec table.now room.0) }
{
    byte_of(table, room, Heading::LEVEL)
}

pub fn heading_code(table: &[u8], room: Room) -> Code
    ensures { result.0 ≡ heading_code (rec table.now room.0) }
{
    Code(byte_of(table, room, Heading::CODE))
}

pub fn lifetime_of(table: &[u8], room: Room) -> u8
    ensures { result ≡ lifetime (rec table.now room.0) }
{
    byte_of(table, room, Heading::LIFETIME)
}

pub fn text_length(table: &[u8], room: Room) -> Bytes
    ensures { (result.0 ≡ text_length (rec table.now room.0)) × (result.0 < 65536) }
{
    Bytes(usize::from(two_of(table, room, Heading::LENGTH)))
}

// How many entries name a heading.
pub fn named_count(table: &[u8], room: Room) -> Room
    ensures { (result.0 ≡ named_count (rec table.now room.0)) × (result.0 < 65536) }
{
    Room(usize::from(two_of(table, room, Heading::NAMED)))
}

// How many entries a directory holds.
pub fn held_count(table: &[u8], room: Room) -> Room
    ensures { (result.0 ≡ held_count (rec table.now room.0)) × (result.0 < 65536) }
{
    Room(usize::from(two_of(table, room, Heading::HELD)))
}

pub fn mark_of(table: &[u8], room: Room) -> u8
    ensures { result ≡ mark (rec table.now room.0) }
{
    byte_of(table, room, Heading::MARK)
}

pub fn is_marked(table: &[u8], room: Room) -> bool
    ensures { result ≡ marked (rec table.now room.0) }
{
    mark_of(table, room) == Heading::MARKED
}

// Whether a record is a heading of a type.
fn is_type(table: &[u8], room: Room, ty: u8) -> bool
    ensures { result ≡ (is_kind 1 (rec table.now room.0) && eqb (heading_type (rec table.now room.0)) ty) }
{
    kind_of(table, room) == Heading::KIND && type_of(table, room) == ty
}

pub fn is_directory(table: &[u8], room: Room) -> bool
    ensures { result ≡ directory (rec table.now room.0) }
{
    is_type(table, room, Heading::DIRECTORY)
}

pub fn is_simple(table: &[u8], room: Room) -> bool
    ensures { result ≡ simple (rec table.now room.0) }
{
    is_type(table, room, Heading::SIMPLE)
}

// A heading's record with another code.
#[tactic(auto, unfolding(paper::specs::Effect::recoded))]
pub fn recoded(table: &[u8], room: Room, code: Code) -> [u8; Room::SIZE]
    ensures { result ≡ recoded (padded 32 (rec table.now room.0)) code.0 }
{
    let mut r = whole(table, room);
    r[Heading::CODE] = code.0;
    r
}

// A heading's record with another mark and text length.
#[tactic(auto, unfolding(paper::specs::Record::rewritten))]
pub fn rewritten(table: &[u8], room: Room, mark: u8, length: Bytes) -> [u8; Room::SIZE]
    ensures { result ≡ rewritten (padded 32 (rec table.now room.0)) mark length.0 }
{
    let mut r = whole(table, room);
    r[Heading::MARK] = mark;
    copy_in(&mut r, Heading::LENGTH, &two_bytes(length.0));
    r
}

// A heading's record with other counts.
#[tactic(auto, unfolding(crate::specs::Counts::counted))]
pub fn recounted(table: &[u8], room: Room, named: Room, held: Room) -> [u8; Room::SIZE]
    ensures { result ≡ counted (padded 32 (rec table.now room.0)) named.0 held.0 }
{
    let mut r = whole(table, room);
    copy_in(&mut r, Heading::NAMED, &two_bytes(named.0));
    copy_in(&mut r, Heading::HELD, &two_bytes(held.0));
    r
}
