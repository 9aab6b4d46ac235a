// Entries are chained by a hash of their place and name, and a name borne twice in one place is found in its chain. Only those that stay
// are chained: the marks of what goes are handed on with the table, since it is the table without them that the chains are of.
ghost use Rattle.std.specs.Prelude.{◌≡◌, true, false, MatchOption, ◌+◌, ◌<◌, ◌≤◌, length};
ghost use Rattle.paper.specs.Scan.{any_below};
ghost use Rattle.paper.specs.Record.{is_kind};
ghost use Rattle.paper.specs.Table.{rooms, rec};
ghost use Rattle.judge_laws.specs.Chains.{last_in, Linked, Chained};
ghost use Rattle.judge_laws.specs.Mask.{without};
ghost use Rattle.judge_laws.specs.Twins.{hash_of, twin, twin_to, single};

use crate::read::{name_of, three_of, two_of};
use records::bytes::Room;
use records::entry::Entry;

// The chains: the last entry of each bucket and, for each entry, the one before it in its bucket; one more than its number, or 0 for none.
#[derive(Drop)]
pub(crate) struct Buckets {
    pub head: [u16; Room::MOST],
    pub next: [u16; Room::MOST],
}

impl Buckets {
    // What stands above the low half of a name's number.
    const HALF: usize = 1 << 32;
    // What stands above the low bits of a hash, which spread the least and are left out.
    pub const LOW: usize = 1 << 24;
}

// The bucket of entry i: any numbers would do that spread the names as well.
#[tactic(auto, unfolding(judge_laws::specs::Twins::hash_of))]
fn hash_of(t: &[u8], i: usize) -> usize
    requires { i < rooms t.now }
    ensures { (result ≡ hash_of (rec t.now i)) × (result < 2048) }
{
    let x = name_of(t, i);
    let a = two_of(t, i, Entry::HOLDER) * 926071635 + three_of(t, i, Entry::USER) * 621943401;
    let b = a + x / Buckets::HALF * 374761393;
    let c = b + x % Buckets::HALF * 1013904223;
    c / Buckets::LOW % Room::MOST
}

// Whether entry k stands where entry i does and bears its name.
pub(crate) fn are_twins(t: &[u8], i: usize, k: usize) -> bool
    requires { (i < rooms t.now) × (k < rooms t.now) × (is_kind 2 (rec t.now k) ≡ true) }
    ensures { result ≡ twin (rec t.now i) (rec t.now k) }
{
    two_of(t, i, Entry::HOLDER) == two_of(t, k, Entry::HOLDER)
        && three_of(t, i, Entry::USER) == three_of(t, k, Entry::USER)
        && name_of(t, i) == name_of(t, k)
}

// The steps that all walks together may still take, if a walk through entry i's bucket meets no twin of it: from one more than the last entry
// there to its end, or to the last step. With none left the chains are given up. A `while`, since each number is read from the entry before it.
fn twin_before(
    t: &[u8],
    gone: &[u8; Room::MOST],
    next: &[u16; Room::MOST],
    i: usize,
    first: usize,
    steps: usize,
) -> Option<usize>
    requires { (i < rooms t.now) × (length t.now ≤ 65536) × (is_kind 2 (rec (without gone.now t.now) i) ≡ true)
        × (first ≡ last_in hash_of (without gone.now t.now) (hash_of (rec (without gone.now t.now) i)) i)
        × Linked hash_of (without gone.now t.now) next.now i }
    ensures { MatchOption result (any_below (twin_to (without gone.now t.now) i) i ≡ true)
        (λ left. (0 < left → any_below (twin_to (without gone.now t.now) i) i ≡ false) × (left ≤ steps)) }
{
    let mut c = first;
    let mut left = steps;
    while 0 < c {
        if left < 2 {
            return Some(0);
        }
        if are_twins(t, i, c - 1) {
            return None;
        }
        c = usize::from(next[c - 1]);
        left -= 1;
    }
    Some(left)
}

// Entry i is looked for in its chain, and put into it if it has no twin there.
pub(crate) fn chain_turn(
    t: &[u8],
    gone: &[u8; Room::MOST],
    buckets: &mut Buckets,
    i: usize,
    left: usize,
) -> Option<usize>
    requires { (i < rooms t.now) × (length t.now ≤ 65536) × (is_kind 2 (rec (without gone.now t.now) i) ≡ true)
        × Chained hash_of (without gone.now t.now) buckets.old.head buckets.old.next left i }
    ensures { MatchOption result (single (without gone.now t.now) i ≡ false)
        (λ rest. (0 < rest → single (without gone.now t.now) i ≡ true)
        × Chained hash_of (without gone.now t.now) buckets.new.head buckets.new.next rest (i + 1) × (rest ≤ left)) }
{
    if left == 0 {
        return Some(0);
    }
    let h = hash_of(t, i);
    let first = buckets.head[h];
    let rest = twin_before(t, gone, &buckets.next, i, usize::from(first), left)?;
    buckets.next[i] = first;
    buckets.head[h] = (i + 1) as u16;
    Some(rest)
}
