// All counts corrected: each heading that says others than the table's is stored with these.
ghost use Rattle.std.specs.Prelude.{cond, [], ◌≡◌, ◌+◌, ◌<◌, ◌≤◌, length};
ghost use Rattle.paper.specs.Count.{namings, holdings, says, recounts};
ghost use Rattle.paper.specs.Table.{sized, rooms, rec};
ghost use Rattle.records.specs.Counts.{tells};
ghost use Rattle.records.specs.Numbered.{Numbered};
ghost use Rattle.effects.specs.Counted.{Counted};
ghost use Rattle.effects.specs.Corrected.{told, corrects};

use crate::numbers::{count_holds, count_names};
use records::bytes::{Room, is_sized, kind_of, rooms, two_bytes, two_of};
use records::heading::{Heading, is_directory};
use records::store::{copy_in, store, whole};

// A heading's record with these counts; a file that is no directory keeps its bytes 14-15.
fn counted(table: &[u8], room: Room, named: u16, held: u16) -> [u8; Room::SIZE]
    requires { room.0 < rooms table.now }
    ensures { result ≡ told named held (rec table.now room.0) }
{
    let mut r = whole(table, room);
    copy_in(&mut r, Heading::NAMED, &two_bytes(named as usize));
    if is_directory(table, room) {
        copy_in(&mut r, Heading::HELD, &two_bytes(held as usize));
    }
    r
}

// Whether a heading says these counts.
fn is_told(table: &[u8], room: Room, named: u16, held: u16) -> bool
    requires { room.0 < rooms table.now }
    ensures { result ≡ tells named held (rec table.now room.0) }
{
    two_of(table, room, Heading::NAMED) == named
        && (!is_directory(table, room) || two_of(table, room, Heading::HELD) == held)
}

// Record i, if it is a heading that says other counts, is stored with these if the stop number allows one more store; how many are needed
// with it.
fn correct_turn(
    table: &mut [u8],
    named: u16,
    held: u16,
    i: usize,
    needed: usize,
    stop: usize,
) -> usize
    requires { (i < rooms table.old) × (needed < 8192) }
    ensures { Counted table.old table.new stop needed result (corrects named held i (rec table.old i))
        × (result ≤ needed + 1) }
{
    let room = Room(i);
    if kind_of(table, room) != Heading::KIND || is_told(table, room, named, held) {
        return needed;
    }
    if needed < stop {
        let bytes = counted(table, room, named, held);
        store(table, room, bytes);
    }
    needed + 1
}

// The headings are corrected by record number, as far as the stop number allows; how many stores are needed.
fn correct_all(
    table: &mut [u8],
    named: &[u16; Room::MOST],
    held: &[u16; Room::MOST],
    stop: usize,
) -> usize
    requires { (length table.old ≤ 65536) × Numbered (namings table.old) named.now × Numbered (holdings table.old) held.now }
    ensures { Counted table.old table.new stop 0 result (recounts table.old) × (result ≤ 2048) }
{
    let mut needed: usize = 0;
    for i in 0..rooms(table).0 {
        needed = correct_turn(table, named[i], held[i], i, needed, stop);
    }
    needed
}

// "corrects every heading whose counts [are] untrue .., one store each, by record number": of a sized table, exactly the first `stop` of these
// stores; how many there are in all.
pub fn recount_all(table: &mut [u8], stop: usize) -> usize
    ensures { Counted table.old table.new stop 0 result
        (cond (sized table.old) (recounts table.old) []) × (result ≤ 2048) }
{
    if !is_sized(table) {
        return 0;
    }
    let mut named = [0u16; Room::MOST];
    let mut held = [0u16; Room::MOST];
    count_names(table, &mut named);
    count_holds(table, &mut held);
    correct_all(table, &named, &held, stop)
}
