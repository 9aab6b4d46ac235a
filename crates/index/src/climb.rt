// Is a list the true index? As many as there are entries ascend strictly, and 65,535 after them.
ghost use Rattle.std.specs.Prelude.{◌≡◌, ◌≤◌, ◌<◌};
ghost use Rattle.paper.specs.Scan.{count_below};
ghost use Rattle.paper.specs.Table.{rooms};
ghost use Rattle.paper.specs.Index.{rank, is_entry};
ghost use Rattle.index_laws.specs.Climbs.{goes_on, climbs, padding};
ghost use Rattle.index.specs.Shown.{rank_shown};

use crate::rank::{Rank, after, rank_at};
use records::bytes::Room;
use records::entry::Entry;

// Whether a record that is there is an entry.
pub(crate) fn is_entry(t: &[u8], i: usize) -> bool
    requires { i < rooms t.now }
    ensures { result ≡ is_entry t.now i }
{
    t[i * Room::SIZE] == Entry::KIND
}

// How many entries the table has.
pub(crate) fn count_entries(t: &[u8]) -> usize
    ensures { (result ≡ count_below (is_entry t.now) (rooms t.now)) × (result ≤ rooms t.now) }
{
    let mut count = 0;
    for i in 0..t.len() / Room::SIZE {
        if is_entry(t, i) {
            count += 1;
        }
    }
    count
}

// Whether record e is an entry of the table whose rank is at least low.
pub(crate) fn goes_on(t: &[u8], low: Rank, e: usize) -> bool
    ensures { result ≡ goes_on (rank t.now) (is_entry t.now) (rooms t.now) (rank_shown low) e }
{
    e < t.len() / Room::SIZE && is_entry(t, e) && rank_at(t, e) >= low
}

// Whether a list is of entries in strictly ascending order.
pub(crate) fn all_climb(t: &[u8], x: &[u16]) -> bool
    ensures { result ≡ climbs (rank t.now) (is_entry t.now) (rooms t.now) 0 x.now }
{
    let mut low = Rank { holder: 0, name: 0 };
    for &number in x {
        let e = usize::from(number);
        if !goes_on(t, low, e) {
            return false;
        }
        low = after(rank_at(t, e));
    }
    true
}

// Whether a list holds nothing but 65,535: every place is looked at, so that many can be at a time.
pub(crate) fn all_padding(x: &[u16]) -> bool
    ensures { result ≡ padding x.now }
{
    let mut padded = true;
    for &number in x {
        padded &= number == u16::MAX;
    }
    padded
}
