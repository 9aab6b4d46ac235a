// The stores of a sweep: which records are lost, their clearing by record number, and the counts.
ghost use Rattle.std.specs.Prelude.{true, cond, [], ◌∷◌, ◌≡◌, ◌+◌, ◌<◌, ◌≤◌, length};
ghost use Rattle.paper.specs.Store.{clear, clears};
ghost use Rattle.paper.specs.Sweep.{sweep_stores};
ghost use Rattle.paper.specs.Record.{byte};
ghost use Rattle.paper.specs.Table.{sized, rooms, rec};
ghost use Rattle.effects.specs.Counted.{Counted};
ghost use Rattle.effects.specs.Allowed.{Allowed};
ghost use Rattle.sweep.specs.Lost.{mark_number, lost_mark, LostBelow, has_mark, lost_stores, all_stores};
ghost use Rattle.sweep.specs.Marked.{marked, Reaches};

use crate::reach::Reached;
use effects::recount::recount_all;
use records::bytes::{Room, kind_of, rooms};
use records::entry::{Entry, Holder, holder_of};
use records::heading::Heading;
use records::store::clear;
use records::text::{Text, heading_of};

// What a record is lost as.
#[derive(Clone, Copy)]
enum Lost {
    Stays,
    // an entry, not a base file's, whose directory is not reached
    Entry,
    // a heading that is not reached
    Heading,
    // text of such a heading
    Text,
}

// Whether a heading is marked as reached: past the marks none is.
fn is_reached(marks: &[bool; Room::MOST], heading: Room) -> bool
    requires { length marks.now ≡ 2048 }
    ensures { result ≡ marked marks.now heading.0 }
{
    heading.0 < Room::MOST && marks[heading.0]
}

// The mark of entry i.
fn mark_entry(table: &[u8], marks: &[bool; Room::MOST], i: usize) -> Lost
    requires { (byte (rec table.now i) 0 ≡ 2) × Reaches table.now marks.now }
    ensures { mark_number result ≡ lost_mark table.now i }
{
    let holder = holder_of(table, Room(i));
    if holder.0 == Holder::BASE || is_reached(marks, holder) {
        Lost::Stays
    } else {
        Lost::Entry
    }
}

// The mark of record i: whether it is lost, and as what.
fn mark_of(table: &[u8], marks: &[bool; Room::MOST], i: usize) -> Lost
    requires { Reaches table.now marks.now }
    ensures { mark_number result ≡ lost_mark table.now i }
{
    match kind_of(table, Room(i)) {
        Entry::KIND => mark_entry(table, marks, i),
        Heading::KIND if !is_reached(marks, Room(i)) => Lost::Heading,
        Text::KIND if !is_reached(marks, heading_of(table, Room(i))) => Lost::Text,
        _ => Lost::Stays,
    }
}

// The marks of all records, as numbers: they take the place of the queue, since memory is fixed.
#[tactic(auto, using(crate::proofs::Cleared::mark_tag))]
fn mark_lost(table: &[u8], reached: &mut Reached)
    requires { (sized table.now ≡ true) × Reaches table.now reached.old.marks × (length reached.old.queue ≡ 2048) }
    ensures { LostBelow table.now reached.new.queue (rooms table.now) }
{
    for i in 0..rooms(table).0 {
        reached.queue[i] = mark_of(table, &reached.marks, i) as u16;
    }
}

// Record i, if it has this mark, is cleared if the stop number allows one more store; how many are needed with it.
fn clear_turn(
    table: &mut [u8],
    lost: &[u16; Room::MOST],
    mark: Lost,
    i: usize,
    needed: usize,
    stop: usize,
) -> usize
    requires { (i < 2048) × (needed < 6144) }
    ensures { Counted table.old table.new stop needed result (cond (has_mark lost.now (mark_number mark) i) (clear i ∷ []) [])
        × (result ≤ needed + 1) }
{
    if lost[i] != mark as u16 {
        return needed;
    }
    if needed < stop {
        clear(table, Room(i));
    }
    needed + 1
}

// The records with this mark are cleared by record number, as far as the stop number allows; how many stores are needed with them. The marks are
// `Lost` as two bytes: they stand in the memory of the queue.
fn clear_marked(
    table: &mut [u8],
    lost: &[u16; Room::MOST],
    mark: Lost,
    before: usize,
    stop: usize,
) -> usize
    requires { (length table.old ≤ 65536) × (before ≤ 4096) }
    ensures { Counted table.old table.new stop before result (clears (has_mark lost.now (mark_number mark)) (rooms table.old))
        × (result ≤ before + 2048) }
{
    let mut needed = before;
    for i in 0..rooms(table).0 {
        needed = clear_turn(table, lost, mark, i, needed, stop);
    }
    needed
}

// The entries are cleared, then the headings and then the text, exactly the first `stop` of them; how many stores are needed in all.
fn clear_lost(table: &mut [u8], lost: &[u16; Room::MOST], stop: usize) -> usize
    requires { length table.old ≤ 65536 }
    ensures { Counted table.old table.new stop 0 result (lost_stores lost.now table.old) × (result ≤ 6144) }
{
    let entries = clear_marked(table, lost, Lost::Entry, 0, stop);
    let headings = clear_marked(table, lost, Lost::Heading, entries, stop);
    clear_marked(table, lost, Lost::Text, headings, stop)
}

// What is lost is cleared and then the counts are corrected, exactly the first `stop` of these stores; how many are needed, or more than `stop`.
fn clear_and_correct(table: &mut [u8], lost: &[u16; Room::MOST], stop: usize) -> usize
    requires { sized table.old ≡ true }
    ensures { Allowed table.old table.new stop result (all_stores lost.now table.old) × (result ≤ 8192) }
{
    let needed = clear_lost(table, lost, stop);
    if stop < needed {
        return needed;
    }
    needed + recount_all(table, stop - needed)
}

// The stores of a sweep, exactly the first `stop` of them; how many are needed, or more than `stop`.
pub fn store_sweep(table: &mut [u8], stop: usize) -> usize
    requires { sized table.old ≡ true }
    ensures { Allowed table.old table.new stop result (sweep_stores table.old) × (result ≤ 8192) }
{
    let mut reached = Reached {
        marks: [false; Room::MOST],
        queue: [0; Room::MOST],
        end: 0,
    };
    reached.mark(table);
    mark_lost(table, &mut reached);
    clear_and_correct(table, &reached.queue, stop)
}
