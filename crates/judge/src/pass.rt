// One pass over the table: each record is judged by its kind, and what the whole table must show is counted on the way.
ghost use Rattle.std.specs.Prelude.{◌≡◌, false, cond, MatchOption, ◌+◌, ◌<◌, ◌≤◌, ◌%◌, length};
ghost use Rattle.paper.specs.Layout.{boxed};
ghost use Rattle.paper.specs.Sound.{is_base, shaped};
ghost use Rattle.paper.specs.Table.{rooms, rec};
ghost use Rattle.judge_laws.specs.Mask.{without};
ghost use Rattle.judge_laws.specs.Counts.{headed, all_headed};
ghost use Rattle.judge_laws.specs.Places.{Laid};
ghost use Rattle.judge_laws.specs.Pass.{Passed};
ghost use Rattle.records.specs.Numbered.{naming, holding, Numbered};
ghost use Rattle.judge_laws.specs.Codes.{Classed};

use crate::counts::{Counts, is_told};
use crate::entry::entry_turn;
use crate::heading::heading_turn;
use crate::read::{raw_of, two_of};
use crate::text::text_turn;
use crate::twins::Buckets;
use crate::zeros::is_free;
use records::bytes::Room;
use records::entry::{Entry, Holder};
use records::heading::Heading;
use records::text::Text;

// What was passed, all of it right: how many text records, how many entries of base files, and the steps left for the chains.
#[derive(Clone, Copy)]
pub(crate) struct Tally {
    pub texts: usize,
    pub bases: usize,
    pub left: usize,
}

impl Tally {
    // As many steps as all walks through the chains may take together.
    const MOST_STEPS: usize = 8192;
}

// 1 if entry i is a base file's.
fn base_of(t: &[u8], i: usize) -> usize
    requires { i < rooms t.now }
    ensures { (result ≡ cond (is_base (rec t.now i)) 1 0) × (result ≤ 1) }
{
    usize::from(two_of(t, i, Entry::HOLDER) == Holder::BASE)
}

// Record i is judged by its kind; one that goes will be free.
fn turn(
    t: &[u8],
    gone: &[u8; Room::MOST],
    class: &[u8; 64],
    start: &[u16; Room::MOST],
    mark: &mut [u8; Room::MOST],
    counts: &mut Counts,
    buckets: &mut Buckets,
    i: usize,
    s: Tally,
) -> Option<Tally>
    requires { (i < rooms t.now) × (length t.now % 32 ≡ 0) × (length t.now ≤ 65536) × Classed class.now
        × Laid (without gone.now t.now) start.now
        × Passed gone.now t.now mark.old counts.old.named counts.old.held buckets.old.head buckets.old.next s.texts s.bases s.left i }
    ensures { MatchOption result (shaped boxed (without gone.now t.now) ≡ false)
        (λ r. Passed gone.now t.now mark.new counts.new.named counts.new.held buckets.new.head buckets.new.next r.texts r.bases r.left (i + 1)) }
{
    if gone[i] != 0 {
        return Some(s);
    }
    match raw_of(t, i, Room::KIND) {
        Entry::KIND => {
            let left = entry_turn(t, gone, class, counts, buckets, i, s.left)?;
            let bases = s.bases + base_of(t, i);
            Some(Tally { bases, left, ..s })
        }
        Text::KIND => {
            let texts = s.texts + 1;
            text_turn(t, gone, start, mark, i).then_some(Tally { texts, ..s })
        }
        Heading::KIND => heading_turn(t, i).then_some(s),
        _ => is_free(t, i).then_some(s),
    }
}

// All records are judged, to the first that is not right.
pub(crate) fn pass_all(
    t: &[u8],
    gone: &[u8; Room::MOST],
    class: &[u8; 64],
    start: &[u16; Room::MOST],
    mark: &mut [u8; Room::MOST],
    counts: &mut Counts,
    buckets: &mut Buckets,
) -> Option<Tally>
    requires { (length t.now % 32 ≡ 0) × (length t.now ≤ 65536) × Classed class.now × Laid (without gone.now t.now) start.now
        × Passed gone.now t.now mark.old counts.old.named counts.old.held buckets.old.head buckets.old.next 0 0 8192 0 }
    ensures { MatchOption result (shaped boxed (without gone.now t.now) ≡ false)
        (λ r. Passed gone.now t.now mark.new counts.new.named counts.new.held buckets.new.head buckets.new.next r.texts r.bases r.left (rooms t.now)) }
{
    let mut s = Tally {
        texts: 0,
        bases: 0,
        left: Tally::MOST_STEPS,
    };
    for i in 0..t.len() / Room::SIZE {
        s = turn(t, gone, class, start, mark, counts, buckets, i, s)?;
    }
    Some(s)
}

// Whether record i, if it is a heading that stays, is named and, where counts are judged, says them.
fn is_named(t: &[u8], gone: &[u8; Room::MOST], counts: &Counts, counted: bool, i: usize) -> bool
    requires { (i < rooms t.now) × (length t.now % 32 ≡ 0) × (length t.now ≤ 65536)
        × Numbered (naming (without gone.now t.now) (rooms t.now)) counts.now.named
        × Numbered (holding (without gone.now t.now) (rooms t.now)) counts.now.held }
    ensures { result ≡ headed counted (without gone.now t.now) i }
{
    if raw_of(t, i, Room::KIND) != Heading::KIND || gone[i] != 0 {
        return true;
    }
    let n = counts.named[i];
    n != 0 && (!counted || is_told(t, i, usize::from(n), usize::from(counts.held[i])))
}

// Whether every heading that stays is named and, where counts are judged, says them.
pub(crate) fn are_named(t: &[u8], gone: &[u8; Room::MOST], counts: &Counts, counted: bool) -> bool
    requires { (length t.now % 32 ≡ 0) × (length t.now ≤ 65536)
        × Numbered (naming (without gone.now t.now) (rooms t.now)) counts.now.named
        × Numbered (holding (without gone.now t.now) (rooms t.now)) counts.now.held }
    ensures { result ≡ all_headed counted (without gone.now t.now) }
{
    (0..t.len() / Room::SIZE).all(|i| is_named(t, gone, counts, counted, i))
}
