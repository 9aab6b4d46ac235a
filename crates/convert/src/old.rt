// Document 01's names: "9 name length; 10-19 name", and whether an entry is legible by them.
ghost use Rattle.std.specs.Prelude.{◌≡◌, ◌<◌, ◌≤◌, length};
ghost use Rattle.paper.specs.Layout.{name_of, name_field, old};
ghost use Rattle.paper.specs.Table.{rooms, rec};
ghost use Rattle.paper.specs.Effect.{renamed};
ghost use Rattle.convert.specs.Looked.{legible, legible_at, all_legible};

use records::bytes::{Bytes, Room, byte_of, kind_of, part, record_at, rooms};
use records::entry::Entry;
use records::name::are_same;
use records::store::{copy_in, whole};
use words::name::is_link_name;

#[derive(Clone, Copy)]
struct OldName;

impl OldName {
    // "9 name length"
    const LENGTH: usize = 9;
    // "10-19 name"
    const NAME: usize = 10;
    // The bytes from the length on.
    const SIZE: usize = 23;
}

// The name that an entry bears.
pub(crate) fn old_name(table: &[u8], room: Room) -> &[u8]
    ensures { result.now ≡ name_of old (rec table.now room.0) }
{
    let length = usize::from(byte_of(table, room, OldName::LENGTH));
    let field = part(
        record_at(table, room),
        OldName::NAME,
        Bytes(Entry::MOST_NAME),
    );
    part(field, 0, Bytes(length))
}

// The bytes of an entry from byte 9 on, under a name: its length, and zeros after it.
fn old_field(name: &[u8]) -> [u8; OldName::SIZE]
    requires { length name.now ≤ 10 }
    ensures { result ≡ name_field old name.now }
{
    let mut r = [0u8; OldName::SIZE];
    r[0] = name.len() as u8;
    copy_in(&mut r, 1, name);
    r
}

// An entry's record with this name.
pub(crate) fn old_record(table: &[u8], room: Room, name: &[u8]) -> [u8; Room::SIZE]
    requires { (room.0 < rooms table.now) × (length name.now ≤ 10) }
    ensures { result ≡ renamed old (rec table.now room.0) name.now }
{
    let field = old_field(name);
    let mut r = whole(table, room);
    copy_in(&mut r, Entry::NAME, &field);
    r
}

// Whether an entry bears a link name and has the bytes that this name lays.
fn is_legible(table: &[u8], room: Room) -> bool
    requires { room.0 < rooms table.now }
    ensures { result ≡ legible old (rec table.now room.0) }
{
    let name = old_name(table, room);
    is_link_name(name) && are_same(record_at(table, room), &old_record(table, room, name))
}

// Whether record i is legible, if it is an entry.
fn is_legible_at(table: &[u8], i: usize) -> bool
    requires { i < rooms table.now }
    ensures { result ≡ legible_at old table.now i }
{
    kind_of(table, Room(i)) != Entry::KIND || is_legible(table, Room(i))
}

// Whether every entry is legible.
pub(crate) fn are_legible(table: &[u8]) -> bool
    ensures { result ≡ all_legible old table.now }
{
    (0..rooms(table).0).all(|i| is_legible_at(table, i))
}
