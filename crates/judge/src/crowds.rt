// Has any directory more than 112 entries, or any user more than 100 base files? Entries that stay are chained by a hash of their place.
ghost use Rattle.std.specs.Prelude.{◌≡◌, true, ◌+◌, ◌<◌, ◌≤◌, length};
ghost use Rattle.paper.specs.Record.{is_kind};
ghost use Rattle.paper.specs.Table.{rooms, rec};
ghost use Rattle.paper.specs.Entry.{holder, limit};
ghost use Rattle.paper.specs.Sound.{none_crowded};
ghost use Rattle.judge_laws.specs.Tally.{last_below};
ghost use Rattle.judge_laws.specs.Chains.{last_in, Linked, Chains};
ghost use Rattle.judge_laws.specs.Mask.{without};
ghost use Rattle.judge_laws.specs.Crowds.{place_of, beside_to, rank_of, roomy, Ranked};

use crate::entry::is_entry;
use crate::read::{three_of, two_of};
use crate::twins::Buckets;
use records::bytes::Room;
use records::entry::{Entry, Holder};

// The bucket of entry i, by its place.
#[tactic(auto, unfolding(judge_laws::specs::Crowds::place_of))]
fn place_of(t: &[u8], i: usize) -> usize
    requires { i < rooms t.now }
    ensures { (result ≡ place_of (rec t.now i)) × (result < 2048) }
{
    let a = two_of(t, i, Entry::HOLDER) * 237074338683 + three_of(t, i, Entry::USER) * 159217510859;
    a / Buckets::LOW % Room::MOST
}

// Whether entry k stands where entry i does.
fn are_beside(t: &[u8], i: usize, k: usize) -> bool
    requires { (i < rooms t.now) × (k < rooms t.now) × (is_kind 2 (rec t.now k) ≡ true) }
    ensures { result ≡ beside_to t.now i k }
{
    two_of(t, i, Entry::HOLDER) == two_of(t, k, Entry::HOLDER)
        && three_of(t, k, Entry::USER) == three_of(t, i, Entry::USER)
}

// One more than the last entry before entry i in its place, or 0: a walk through its bucket, a `while` as that for twins.
fn last_beside(
    t: &[u8],
    gone: &[u8; Room::MOST],
    next: &[u16; Room::MOST],
    i: usize,
    first: usize,
) -> usize
    requires { (i < rooms t.now) × (length t.now ≤ 65536) × (is_kind 2 (rec (without gone.now t.now) i) ≡ true)
        × (first ≡ last_in place_of (without gone.now t.now) (place_of (rec (without gone.now t.now) i)) i)
        × Linked place_of (without gone.now t.now) next.now i }
    ensures { (result ≡ last_below (beside_to (without gone.now t.now) i) i) × (result ≤ i) }
{
    let mut c = first;
    while 0 < c {
        if are_beside(t, i, c - 1) {
            return c;
        }
        c = usize::from(next[c - 1]);
    }
    0
}

// The number of entry i in its place, from the last entry there.
fn rank_of(
    t: &[u8],
    gone: &[u8; Room::MOST],
    rank: &[u8; Room::MOST],
    i: usize,
    last: usize,
) -> usize
    requires { (i < rooms t.now) × (length t.now ≤ 65536) × (is_kind 2 (rec (without gone.now t.now) i) ≡ true)
        × Ranked (without gone.now t.now) rank.now i × (last ≡ last_below (beside_to (without gone.now t.now) i) i) × (last ≤ i) }
    ensures { result ≡ rank_of (without gone.now t.now) i }
{
    if last == 0 {
        1
    } else {
        usize::from(rank[last - 1]) + 1
    }
}

// How many entries may stand in the place of entry i.
fn limit_of(t: &[u8], i: usize) -> usize
    requires { i < rooms t.now }
    ensures { (result ≡ limit (holder (rec t.now i))) × (result ≤ 112) }
{
    if two_of(t, i, Entry::HOLDER) == Holder::BASE {
        Entry::MOST_BASE_FILES
    } else {
        Entry::MOST_IN_DIRECTORY
    }
}

// Whether record i, if it is an entry that stays, is not past the limit of its place; if so it is put into its chain with its number.
fn crowd_turn(
    t: &[u8],
    gone: &[u8; Room::MOST],
    buckets: &mut Buckets,
    rank: &mut [u8; Room::MOST],
    i: usize,
) -> bool
    requires { (i < rooms t.now) × (length t.now ≤ 65536) × Chains place_of (without gone.now t.now) buckets.old.head buckets.old.next i
        × Ranked (without gone.now t.now) rank.old i }
    ensures { (result ≡ roomy (without gone.now t.now) i)
        × (result ≡ true → Chains place_of (without gone.now t.now) buckets.new.head buckets.new.next (i + 1)
        × Ranked (without gone.now t.now) rank.new (i + 1)) }
{
    if !is_entry(t, gone, i) {
        return true;
    }
    let h = place_of(t, i);
    let first = buckets.head[h];
    let last = last_beside(t, gone, &buckets.next, i, usize::from(first));
    let m = rank_of(t, gone, rank, i, last);
    if limit_of(t, i) < m {
        return false;
    }
    rank[i] = m as u8;
    buckets.next[i] = first;
    buckets.head[h] = (i + 1) as u16;
    true
}

// Whether no place has more entries than it may have.
pub(crate) fn crowd_all(
    t: &[u8],
    gone: &[u8; Room::MOST],
    buckets: &mut Buckets,
    rank: &mut [u8; Room::MOST],
) -> bool
    requires { (length t.now ≤ 65536) × Chains place_of (without gone.now t.now) buckets.old.head buckets.old.next 0
        × Ranked (without gone.now t.now) rank.old 0 }
    ensures { result ≡ none_crowded (without gone.now t.now) }
{
    for i in 0..t.len() / Room::SIZE {
        if !crowd_turn(t, gone, buckets, rank, i) {
            return false;
        }
    }
    true
}
