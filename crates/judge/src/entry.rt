// An entry: what it shows by itself and by the records it names, and what is counted of it.
ghost use Rattle.std.specs.Prelude.{◌≡◌, true, false, cond, MatchOption, ◌+◌, ◌<◌, ◌≤◌, ◌%◌, ◌^◌, length};
ghost use Rattle.paper.specs.Record.{is_kind, directory, heading_named, holder_of, user_of};
ghost use Rattle.paper.specs.Layout.{packed_name, boxed};
ghost use Rattle.paper.specs.Sound.{is_base, none_crowded, shaped};
ghost use Rattle.paper.specs.Table.{rooms, rec};
ghost use Rattle.judge_laws.specs.Mask.{without};
ghost use Rattle.judge_laws.specs.Codes.{Classed};
ghost use Rattle.judge_laws.specs.Shapes.{base_right, inside_right, entry_right};
ghost use Rattle.judge_laws.specs.Pass.{Held, Found, Entries};
ghost use Rattle.records.specs.Numbered.{naming, Numbered};

use crate::counts::Counts;
use crate::heading::{is_directory, is_heading};
use crate::name::{is_laid, is_legal_base, is_link};
use crate::read::{name_of, raw_of, three_of, two_of};
use crate::twins::{Buckets, chain_turn};
use records::bytes::Room;
use records::code::Code;
use records::entry::{Entry, Holder};

// Whether record i is an entry that stays.
pub(crate) fn is_entry(t: &[u8], gone: &[u8; Room::MOST], i: usize) -> bool
    requires { (i < rooms t.now) × (length t.now ≤ 65536) }
    ensures { result ≡ is_kind 2 (rec (without gone.now t.now) i) }
{
    raw_of(t, i, Room::KIND) == Entry::KIND && gone[i] == 0
}

// Whether the entry i of a base file has a fit user and a legal base name.
#[tactic(auto, using(judge_laws::proofs::Names::named_by), unfolding(judge_laws::specs::Shapes::base_right))]
fn is_base_right(t: &[u8], i: usize) -> bool
    requires { (i < rooms t.now) × (packed_name (rec t.now i) < 2 ^ 60) }
    ensures { result ≡ base_right (rec t.now i) }
{
    three_of(t, i, Entry::USER) <= Holder::LAST_USER as usize && is_legal_base(name_of(t, i))
}

// Whether record d is a directory's heading that stays: what holds an entry was found to be one.
fn is_holder(t: &[u8], gone: &[u8; Room::MOST], held: &[u8; Room::MOST], d: usize) -> bool
    requires { (length t.now % 32 ≡ 0) × (length t.now ≤ 65536) × Found gone.now t.now held.now }
    ensures { result ≡ directory (rec (without gone.now t.now) d) }
{
    d < t.len() / Room::SIZE && (held[d] != 0 || is_directory(t, gone, d))
}

// Whether entry i, as above by itself, stands where it may.
#[tactic(auto, unfolding(judge_laws::specs::Shapes::inside_right))]
fn is_place_right(t: &[u8], gone: &[u8; Room::MOST], held: &[u8; Room::MOST], i: usize) -> bool
    requires { (i < rooms t.now) × (length t.now % 32 ≡ 0) × (length t.now ≤ 65536) × (packed_name (rec t.now i) < 2 ^ 60)
        × Found gone.now t.now held.now }
    ensures { result ≡ cond (is_base (rec t.now i)) (base_right (rec t.now i)) (inside_right (without gone.now t.now) (rec t.now i)) }
{
    let holder = two_of(t, i, Entry::HOLDER);
    if holder == Holder::BASE {
        is_base_right(t, i)
    } else {
        is_holder(t, gone, held, holder) && three_of(t, i, Entry::USER) == 0
    }
}

// Whether entry i is right.
#[tactic(auto, using(judge_laws::proofs::Names::named_by), unfolding(judge_laws::specs::Shapes::entry_right))]
fn is_entry_right(
    t: &[u8],
    gone: &[u8; Room::MOST],
    class: &[u8; 64],
    held: &[u8; Room::MOST],
    i: usize,
) -> bool
    requires { (i < rooms t.now) × (length t.now % 32 ≡ 0) × (length t.now ≤ 65536) × Classed class.now
        × Found gone.now t.now held.now }
    ensures { result ≡ entry_right (without gone.now t.now) (rec t.now i) }
{
    raw_of(t, i, Entry::CODE) <= Code::ALL
        && is_laid(t, i)
        && is_heading(t, gone, two_of(t, i, Entry::HEADING))
        && is_link(class, name_of(t, i))
        && is_place_right(t, gone, held, i)
}

// Entry i is counted for the heading that it names.
pub(crate) fn name_turn(t: &[u8], gone: &[u8; Room::MOST], named: &mut [u16; Room::MOST], i: usize)
    requires { (i < rooms t.now) × (length t.now ≤ 65536) × (is_kind 2 (rec (without gone.now t.now) i) ≡ true)
        × (heading_named (rec t.now i) < 2048) × Numbered (naming (without gone.now t.now) i) named.old }
    ensures { Numbered (naming (without gone.now t.now) (i + 1)) named.new }
{
    let h = two_of(t, i, Entry::HEADING);
    named[h] += 1;
}

// Entry i, if it is no base file's, is counted for its directory: whether that may hold it.
fn hold_turn(t: &[u8], gone: &[u8; Room::MOST], held: &mut [u8; Room::MOST], i: usize) -> bool
    requires { (i < rooms t.now) × (is_kind 2 (rec (without gone.now t.now) i) ≡ true)
        × (is_base (rec t.now i) ≡ false → (holder_of (rec t.now i) < 2048) × (user_of (rec t.now i) ≡ 0))
        × Held (without gone.now t.now) held.old i }
    ensures { (result ≡ false → none_crowded (without gone.now t.now) ≡ false)
        × (result ≡ true → Held (without gone.now t.now) held.new (i + 1)) }
{
    let d = two_of(t, i, Entry::HOLDER);
    if d == Holder::BASE {
        return true;
    }
    let m = held[d];
    if Entry::MOST_IN_DIRECTORY as u8 <= m {
        return false;
    }
    held[d] = m + 1;
    true
}

// Entry i is judged and counted: if it is right, its directory may hold it, and no entry in its chain is its twin, the steps that are left.
pub(crate) fn entry_turn(
    t: &[u8],
    gone: &[u8; Room::MOST],
    class: &[u8; 64],
    counts: &mut Counts,
    buckets: &mut Buckets,
    i: usize,
    left: usize,
) -> Option<usize>
    requires { (i < rooms t.now) × (length t.now % 32 ≡ 0) × (length t.now ≤ 65536) × (is_kind 2 (rec (without gone.now t.now) i) ≡ true)
        × Classed class.now × Entries (without gone.now t.now) counts.old.named counts.old.held buckets.old.head buckets.old.next left i
        × Found gone.now t.now counts.old.held }
    ensures { MatchOption result (shaped boxed (without gone.now t.now) ≡ false)
        (λ steps. (entry_right (without gone.now t.now) (rec t.now i) ≡ true)
        × Entries (without gone.now t.now) counts.new.named counts.new.held buckets.new.head buckets.new.next steps (i + 1)) }
{
    if !is_entry_right(t, gone, class, &counts.held, i)
        || !hold_turn(t, gone, &mut counts.held, i)
    {
        return None;
    }
    name_turn(t, gone, &mut counts.named, i);
    chain_turn(t, gone, buckets, i, left)
}
