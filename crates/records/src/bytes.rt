// A record of a lent table as a stretch of it, and the numbers in a stretch of bytes.
ghost use Rattle.std.specs.Prelude.{◌≡◌, take, drop};
ghost use Rattle.paper.specs.Number.{bytes_of, number_at};
ghost use Rattle.paper.specs.Record.{byte, two, three};
ghost use Rattle.paper.specs.Table.{sized, rooms, rec};

// A record's number, or a count of records.
#[derive(Clone, Copy, PartialEq, Eq)]
pub struct Room(pub usize);

// A count of bytes.
#[derive(Clone, Copy, PartialEq, Eq)]
pub struct Bytes(pub usize);

impl Room {
    // "records of 32 bytes"
    pub const SIZE: usize = 32;
    // "0 to 2,048 of them"
    pub const MOST: usize = 2048;
    // "Kind (byte 0)"
    pub const KIND: usize = 0;
    // "0 free"
    pub const FREE: u8 = 0;
}

// How many records a table has.
pub fn rooms(table: &[u8]) -> Room
    ensures { result.0 ≡ rooms table.now }
{
    Room(table.len() / Room::SIZE)
}

// Whether the table has a whole number of records, at most 2,048.
pub fn is_sized(table: &[u8]) -> bool
    ensures { result ≡ sized table.now }
{
    table.len() % Room::SIZE == 0 && table.len() <= Room::MOST * Room::SIZE
}

// At most so many bytes of s, from a place on.
pub fn part(s: &[u8], from: usize, most: Bytes) -> &[u8]
    ensures { result.now ≡ take most.0 (drop from s.now) }
{
    let rest = &s[from.min(s.len())..];
    &rest[..most.0.min(rest.len())]
}

// A record, as the stretch of the table that it is; past the end it has no byte.
pub fn record_at(table: &[u8], room: Room) -> &[u8]
    ensures { result.now ≡ rec table.now room.0 }
{
    part(table, room.0.saturating_mul(Room::SIZE), Bytes(Room::SIZE))
}

// The byte at a place; past the end, 0.
pub fn byte_at(s: &[u8], place: usize) -> u8
    ensures { result ≡ byte s.now place }
{
    s.get(place).copied().unwrap_or(0)
}

// The byte at a place of a record, read where it stands.
pub fn byte_of(table: &[u8], room: Room, place: usize) -> u8
    ensures { result ≡ byte (rec table.now room.0) place }
{
    let i = room.0;
    if rooms(table).0 <= i {
        return byte_at(record_at(table, room), place);
    }
    if Room::SIZE <= place {
        return 0;
    }
    table[i * Room::SIZE + place]
}

// The two-byte number at a place of a record, low byte first. Each width has a type of its own and stands on a smaller one; one function
// over the width would be a loop over the bytes and a cast in each caller.
pub fn two_of(table: &[u8], room: Room, place: usize) -> u16
    ensures { result ≡ two (rec table.now room.0) place }
{
    if Room::SIZE <= place {
        return 0;
    }
    let low = byte_of(table, room, place);
    let high = byte_of(table, room, place + 1);
    u16::from_le_bytes([low, high])
}

// The three-byte number at a place of a record, low byte first.
pub fn three_of(table: &[u8], room: Room, place: usize) -> u32
    ensures { result ≡ three (rec table.now room.0) place }
{
    if Room::SIZE <= place {
        return 0;
    }
    let low = u32::from(byte_of(table, room, place));
    let rest = u32::from(two_of(table, room, place + 1));
    low + rest * 256
}

// The four-byte number at a place of a record, low byte first.
fn four_of(table: &[u8], room: Room, place: usize) -> u32
    ensures { result ≡ number_at 4 (rec table.now room.0) place }
{
    if Room::SIZE <= place {
        return 0;
    }
    let low = u32::from(two_of(table, room, place));
    let high = u32::from(two_of(table, room, place + 2));
    low + high * 65536
}

// The eight-byte number at a place of a record, low byte first.
pub fn eight_of(table: &[u8], room: Room, place: usize) -> u64
    ensures { result ≡ number_at 8 (rec table.now room.0) place }
{
    if Room::SIZE <= place {
        return 0;
    }
    let low = u64::from(four_of(table, room, place));
    let high = u64::from(four_of(table, room, place + 4));
    low + high * 4294967296
}

// A number's two low bytes, low byte first; what it has above them is left out.
pub fn two_bytes(n: usize) -> [u8; 2]
    ensures { result ≡ bytes_of 2 n }
{
    let [low, high, ..] = n.to_le_bytes();
    [low, high]
}

// A number's three low bytes, low byte first.
pub fn three_bytes(n: u32) -> [u8; 3]
    ensures { result ≡ bytes_of 3 n }
{
    let [low, middle, high, _] = n.to_le_bytes();
    [low, middle, high]
}

// The kind of a record: 0 free, 1 heading, 2 entry, 3 text. It is a number, since a table may have any byte there.
pub fn kind_of(table: &[u8], room: Room) -> u8
    ensures { result ≡ byte (rec table.now room.0) 0 }
{
    byte_of(table, room, Room::KIND)
}
