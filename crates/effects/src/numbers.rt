// Entries counted: how many name each record, and how many stand in each directory.
ghost use Rattle.std.specs.Prelude.{◌≡◌, ◌≤◌, ◌&&◌, cond, ℕ, Bool, eqb, get_or, min, replicate};
ghost use Rattle.paper.specs.Count.{namings, holdings};
ghost use Rattle.paper.specs.Entry.{in_directory, stands};
ghost use Rattle.paper.specs.Record.{names};
ghost use Rattle.paper.specs.Scan.{count_below};
ghost use Rattle.paper.specs.Table.{sized, rooms, rec};
ghost use Rattle.records.specs.Numbered.{Numbered};
ghost use Rattle.effects.specs.Tally.{Says, Tells, namings_left};

use records::bytes::{Room, is_sized, kind_of, rooms, three_of};
use records::entry::{Entry, heading_named, holder_of};

// Each of the first n records is counted for the record that `of` says, over counts that are all 0. It is to stand in the two that call it.
#[inline(always)]
fn count_first<F: Fn(Room) -> Option<Room>>(n: usize, counts: &mut [u16; Room::MOST], of: F)
    requires { (F.IsAlwaysCallable of) × (n ≤ 2048) × (counts.old ≡ replicate 2048 0) }
    ensures { (is : ℕ → ℕ → Bool) → Says (F.post of) is n → Numbered (λ h. count_below (λ i. is i h) n) counts.new }
{
    for i in 0..n {
        let Some(room) = of(Room(i)) else {
            continue;
        };
        if room.0 < Room::MOST {
            counts[room.0] += 1;
        }
    }
}

// How many of the first records, so many, `of` counts for each record that a table may have.
pub fn tally<F: Fn(Room) -> Option<Room>>(most: Room, counts: &mut [u16; Room::MOST], of: F)
    requires { F.IsAlwaysCallable of }
    ensures { (is : ℕ → ℕ → Bool) → Says (F.post of) is (min most.0 2048)
        → Numbered (λ h. count_below (λ i. is i h) (min most.0 2048)) counts.new }
{
    *counts = [0u16; Room::MOST];
    count_first(most.0.min(Room::MOST), counts, of);
}

// How many of the records of a table, if it is sized, `of` counts for each record that a table may have. It goes up to the table's own number of
// records, so that what `of` reads of one needs no test whether it is there.
fn tally_table<F: Fn(Room) -> Option<Room>>(t: &[u8], counts: &mut [u16; Room::MOST], of: F)
    requires { F.IsAlwaysCallable of }
    ensures { (is : ℕ → ℕ → Bool) → Says (F.post of) is (rooms t.now)
        → Numbered (cond (sized t.now) (λ h. count_below (λ i. is i h) (rooms t.now)) (λ _. 0)) counts.new }
{
    *counts = [0u16; Room::MOST];
    if !is_sized(t) {
        return;
    }
    count_first(rooms(t).0, counts, of);
}

// The record that a record names, if it is an entry.
fn named_by(t: &[u8], room: Room) -> Option<Room>
    ensures { Tells result (λ h. names h (rec t.now room.0)) }
{
    if kind_of(t, room) == Entry::KIND {
        Some(heading_named(t, room))
    } else {
        None
    }
}

// The record that a record names, if it is an entry that bears no mark.
fn named_left(t: &[u8], gone: &[u8; Room::MOST], room: Room) -> Option<Room>
    ensures { Tells result (λ h. names h (rec t.now room.0) && eqb (get_or gone.now room.0 0) 0) }
{
    if room.0 < Room::MOST && gone[room.0] != 0 {
        None
    } else {
        named_by(t, room)
    }
}

// The directory that a record stands in, if it is an entry and no base file's.
#[tactic(auto, unfolding(paper::specs::Entry::stands))]
fn held_by(t: &[u8], room: Room) -> Option<Room>
    ensures { Tells result (λ d. stands (in_directory d) (rec t.now room.0)) }
{
    if kind_of(t, room) == Entry::KIND && three_of(t, room, Entry::USER) == 0 {
        Some(holder_of(t, room))
    } else {
        None
    }
}

// How many entries name each record; of a table that is not sized none are counted.
pub fn count_names(t: &[u8], named: &mut [u16; Room::MOST])
    ensures { Numbered (cond (sized t.now) (namings t.now) (λ _. 0)) named.new }
{
    tally_table(t, named, |room| named_by(t, room));
}

// How many of the entries that bear no mark in `gone` name each record; of a table that is not sized none are counted.
pub fn count_names_left(t: &[u8], gone: &[u8; Room::MOST], named: &mut [u16; Room::MOST])
    ensures { Numbered (cond (sized t.now) (namings_left gone.now t.now) (λ _. 0)) named.new }
{
    tally_table(t, named, |room| named_left(t, gone, room));
}

// How many entries stand in each directory; of a table that is not sized none are counted.
pub fn count_holds(t: &[u8], held: &mut [u16; Room::MOST])
    ensures { Numbered (cond (sized t.now) (holdings t.now) (λ _. 0)) held.new }
{
    tally_table(t, held, |room| held_by(t, room));
}

#[cfg(test)]
mod tests {
    use super::*;

    // Every second record, counted for one.
    fn even(room: Room) -> Option<Room> {
        if room.0 % 2 == 0 { Some(Room(7)) } else { None }
    }

    #[test]
    fn the_first_records_so_many_are_asked(rt: HostRuntime) {
        let mut counts = [9u16; Room::MOST];
        tally(Room(5), &mut counts, |room| even(room));
        assert_eq!(rt; counts[7], 3);
        assert_eq!(rt; counts[6], 0, "what stood there before is gone");
        tally(Room(0), &mut counts, |room| even(room));
        assert_eq!(rt; counts[7], 0, "none is asked");
    }

    #[test]
    fn no_more_are_asked_than_a_table_may_have(rt: HostRuntime) {
        let mut counts = [0u16; Room::MOST];
        tally(Room(5000), &mut counts, |room| even(room));
        assert_eq!(rt; counts[7], 1024);
        tally(Room(1), &mut counts, |_| Some(Room(2048)));
        assert!(rt;
            counts == [0; Room::MOST],
            "a record that no table has is not counted"
        );
    }
}
