// Reach: from the headings that base files' entries name, along the entries of each heading reached, each followed once.
ghost use Rattle.std.specs.Prelude.{true, false, ◌||◌, ◌≡◌, ◌+◌, ◌<◌, length, replicate};
ghost use Rattle.paper.specs.Record.{byte, holder_of};
ghost use Rattle.paper.specs.Sound.{is_base};
ghost use Rattle.paper.specs.Sweep.{reached};
ghost use Rattle.paper.specs.Table.{sized, rooms, rec};
ghost use Rattle.sweep.specs.Listed.{Listed};
ghost use Rattle.sweep.specs.Marked.{Led, Shut, Based, Held, Grown, Waits, Reaches};

use records::bytes::{Room, kind_of, rooms};
use records::entry::{Entry, Holder, heading_named, holder_of};
use records::heading::Heading;

// Record i, if it is an entry of a directory, is listed before the last one there.
#[tactic(auto, using(crate::proofs::Lists::listed_other, crate::proofs::Lists::listed_nowhere, crate::proofs::Marks::heading_room))]
fn list_entry(table: &[u8], i: usize, list: &mut [u16; Room::MOST])
    requires { (i < 2048) × (sized table.now ≡ true) × Listed table.now i list.old }
    ensures { Listed table.now (i + 1) list.new }
{
    let holder = holder_of(table, Room(i));
    if kind_of(table, Room(i)) == Entry::KIND && kind_of(table, holder) == Heading::KIND {
        let d = holder.0;
        list[i] = list[d];
        list[d] = (i + 1) as u16;
    }
}

// All entries are listed.
fn list_entries(table: &[u8], list: &mut [u16; Room::MOST])
    requires { (sized table.now ≡ true) × Listed table.now 0 list.old }
    ensures { Listed table.now (rooms table.now) list.new }
{
    for i in 0..rooms(table).0 {
        list_entry(table, i, list);
    }
}

// The headings marked as reached, and the queue of those whose entries are still to be followed.
#[derive(Drop)]
pub struct Reached {
    pub marks: [bool; Room::MOST],
    pub queue: [u16; Room::MOST],
    // of the queue
    pub end: usize,
}

impl Reached {
    // The heading that entry i names, if it is not marked yet, is marked and put at the end of the queue.
    #[tactic(auto, using(crate::proofs::Marks::unreached))]
    fn reach(&mut self, table: &[u8], i: usize)
        requires { (sized table.now ≡ true) × (i < rooms table.now) × (byte (rec table.now i) 0 ≡ 2)
            × ((is_base (rec table.now i) || reached table.now (holder_of (rec table.now i))) ≡ true) × Held table.now self.old }
        ensures { Held table.now self.new × Grown self.old self.new × Led table.now self.new.marks i }
    {
        let h = heading_named(table, Room(i)).0;
        if kind_of(table, Room(h)) == Heading::KIND && !self.marks[h] {
            self.marks[h] = true;
            self.queue[self.end] = h as u16;
            self.end += 1;
        }
    }

    // The heading that record i names, if it is a base file's entry.
    fn reach_base(&mut self, table: &[u8], i: usize)
        requires { (sized table.now ≡ true) × (i < rooms table.now) × Held table.now self.old × Based table.now self.old.marks i }
        ensures { Held table.now self.new × Grown self.old self.new × Based table.now self.new.marks (i + 1) }
    {
        if kind_of(table, Room(i)) == Entry::KIND && holder_of(table, Room(i)).0 == Holder::BASE {
            self.reach(table, i);
        }
    }

    // The headings that base files' entries name.
    #[tactic(auto, using(crate::proofs::Marks::grown_refl, crate::proofs::Marks::grown_trans, crate::proofs::Marks::based_none))]
    fn reach_bases(&mut self, table: &[u8])
        requires { (sized table.now ≡ true) × Held table.now self.old }
        ensures { Held table.now self.new × Grown self.old self.new × Based table.now self.new.marks (rooms table.now) }
    {
        for i in 0..rooms(table).0 {
            self.reach_base(table, i);
        }
    }

    // The headings that the entries of directory d name, along its list.
    fn reach_from(&mut self, table: &[u8], list: &[u16; Room::MOST], d: usize)
        requires { (sized table.now ≡ true) × Listed table.now (rooms table.now) list.now
            × (reached table.now d ≡ true) × Held table.now self.old }
        ensures { Held table.now self.new × Grown self.old self.new × Shut table.now self.new.marks d }
    {
        let mut next = list[d];
        while let Some(e) = next.checked_sub(1) {
            self.reach(table, e as usize);
            next = list[e as usize];
        }
    }

    // The entries of every heading in the queue are followed, until none is left in it: its end moves on as they are.
    fn reach_on(&mut self, table: &[u8], list: &[u16; Room::MOST])
        requires { (sized table.now ≡ true) × Listed table.now (rooms table.now) list.now
            × Held table.now self.old × Waits table.now 0 self.old × Based table.now self.old.marks (rooms table.now) }
        ensures { Reaches table.now self.new.marks × (length self.new.queue ≡ 2048) }
    {
        let mut taken = 0;
        while taken < self.end {
            let d = self.queue[taken] as usize;
            taken += 1;
            self.reach_from(table, list, d);
        }
    }

    // "what no chain of entries from any user's base files reaches" is not marked, and all else is: of a sized table, from marks that are none. What
    // the queue holds before and after means nothing.
    pub fn mark(&mut self, table: &[u8])
        requires { (sized table.now ≡ true) × (self.old.marks ≡ replicate 2048 false) × (length self.old.queue ≡ 2048) × (self.old.end ≡ 0) }
        ensures { Reaches table.now self.new.marks × (length self.new.queue ≡ 2048) }
    {
        let mut list = [0u16; Room::MOST];
        list_entries(table, &mut list);
        self.reach_bases(table);
        self.reach_on(table, &list);
    }
}
