// Scans of a lent table, each record's kind read first.
#![tactic(auto)]

ghost use Rattle.std.specs.Prelude.{◌≡◌, ◌<◌, ltb, length};
ghost use Rattle.paper.specs.Record.{is_kind};
ghost use Rattle.paper.specs.Layout.{unpacked, boxed};
ghost use Rattle.paper.specs.Table.{rooms, rec, frees};
ghost use Rattle.paper.specs.Entry.{stands, bears, find, crowd, full};
ghost use Rattle.records.specs.Shown.{holder_shown};
ghost use Rattle.scans.specs.Shown.{found_shown};
ghost use Rattle.scans.specs.Free.{next_free};

use records::bytes::{Room, rooms};
use records::entry::{Entry, Holder, bears, stands};
use records::packing::{is_unpacked, pack};

// Whether record i is of a kind.
fn is_kind(table: &[u8], i: usize, kind: u8) -> bool
    requires { i < rooms table.now }
    ensures { result ≡ is_kind kind (rec table.now i) }
{
    table[i * Room::SIZE] == kind
}

// Whether it is an entry that stands there, and one that bears a name there: two tests of `records::entry` after the kind's.
#[tactic(auto, unfolding(paper::specs::Entry::stands))]
fn stands_here(table: &[u8], i: usize, d: Holder) -> bool
    requires { i < rooms table.now }
    ensures { result ≡ stands (holder_shown d) (rec table.now i) }
{
    is_kind(table, i, Entry::KIND) && stands(table, Room(i), d)
}

#[tactic(auto, unfolding(paper::specs::Entry::stands, paper::specs::Entry::bears))]
fn bears_here(table: &[u8], i: usize, d: Holder, number: u64) -> bool
    requires { i < rooms table.now }
    ensures { result ≡ bears boxed (holder_shown d) (unpacked number) (rec table.now i) }
{
    is_kind(table, i, Entry::KIND) && bears(table, Room(i), d, number)
}

// How many entries stand in d.
pub fn crowd(table: &[u8], d: Holder) -> Room
    ensures { result.0 ≡ crowd table.now (holder_shown d) }
{
    let mut count: usize = 0;
    for i in 0..rooms(table).0 {
        if stands_here(table, i, d) {
            count += 1;
        }
    }
    Room(count)
}

// Whether d has as many entries as it may have.
pub fn is_full(table: &[u8], d: Holder) -> bool
    ensures { result ≡ full table.now (holder_shown d) }
{
    d.limit().0 <= crowd(table, d).0
}

// The entry that bears the name of a number in d.
fn find_number(table: &[u8], d: Holder, number: u64) -> Option<Room>
    ensures { result ≡ found_shown (find boxed table.now (holder_shown d) (unpacked number)) }
{
    for i in 0..rooms(table).0 {
        if bears_here(table, i, d, number) {
            return Some(Room(i));
        }
    }
    None
}

// The entry that bears a name in d: the name is packed once, and numbers are compared. No entry bears a name that does not come back
// from its number.
pub fn find(table: &[u8], d: Holder, name: &[u8]) -> Option<Room>
    ensures { result ≡ found_shown (find boxed table.now (holder_shown d) name.now) }
{
    let number = pack(name);
    if is_unpacked(name, number) {
        find_number(table, d, number)
    } else {
        None
    }
}

// How many records are free.
pub fn count_free(table: &[u8]) -> Room
    ensures { result.0 ≡ length (frees table.now) }
{
    let mut count: usize = 0;
    for i in 0..rooms(table).0 {
        if is_kind(table, i, Room::FREE) {
            count += 1;
        }
    }
    Room(count)
}

// Whether fewer records are free than a request needs; no more than it needs are counted.
pub fn has_fewer_free(table: &[u8], needed: usize) -> bool
    ensures { result ≡ ltb (length (frees table.now)) needed }
{
    let mut count: usize = 0;
    for i in 0..rooms(table).0 {
        if needed <= count {
            return false;
        }
        if is_kind(table, i, Room::FREE) {
            count += 1;
        }
    }
    count < needed
}

// The lowest free record from a record on, or one past the last.
pub fn next_free(table: &[u8], from: Room) -> Room
    ensures { result.0 ≡ next_free table.now from.0 }
{
    let n = rooms(table).0;
    for i in from.0..n {
        if is_kind(table, i, Room::FREE) {
            return Room(i);
        }
    }
    Room(n)
}
