// Is this table sound? One pass over its records, and what they leave to be compared at its end.
// The marks of what goes stand beside the table in every call. One struct of both was tried: with a model it hides them, and what is known on the
// way (`Passed`, `Found`) names each; without one the clauses are longer.
#![tactic(auto)]

mod counts;
mod crowds;
mod entry;
mod heading;
mod name;
mod order;
mod pass;
mod read;
mod text;
mod twins;
mod zeros;

ghost use Rattle.std.specs.Prelude.{◌≡◌, true};
ghost use Rattle.paper.specs.Table.{sized};
ghost use Rattle.judge_laws.specs.Mask.{without};
ghost use Rattle.judge_laws.specs.Counts.{sound_but};
ghost use Rattle.judge.specs.Judged.{judged, judged_shape, judged_but};

use crate::counts::Counts;
use crate::crowds::crowd_all;
use crate::name::classes;
use crate::order::none_are_twins;
use crate::pass::{are_named, pass_all};
use crate::text::lay_out;
use crate::twins::Buckets;
use records::bytes::{Room, is_sized};
use records::entry::Entry;

// Whether a sized table is sound without the records that go, its counts judged or not: a flag, which goes on to `sound_but` as it is. No
// user can have too many base files where there are few in all.
fn is_sound(table: &[u8], gone: &[u8; Room::MOST], counted: bool) -> bool
    requires { sized table.now ≡ true }
    ensures { result ≡ sound_but counted (without gone.now table.now) }
{
    let mut start = [0u16; Room::MOST];
    let slots = lay_out(table, gone, &mut start);
    if table.len() / Room::SIZE < slots {
        return false;
    }
    let class = classes();
    let mut mark = [0u8; Room::MOST];
    let mut counts = Counts {
        named: [0; Room::MOST],
        held: [0; Room::MOST],
    };
    let mut buckets = Buckets {
        head: [0; Room::MOST],
        next: [0; Room::MOST],
    };
    let Some(s) = pass_all(
        table,
        gone,
        &class,
        &start,
        &mut mark,
        &mut counts,
        &mut buckets,
    ) else {
        return false;
    };
    if s.texts != slots
        || !are_named(table, gone, &counts, counted)
        || !none_are_twins(table, gone, s.left, &mut buckets.next)
    {
        return false;
    }
    s.bases <= Entry::MOST_BASE_FILES
        || {
            buckets.head = [0; Room::MOST];
            crowd_all(table, gone, &mut buckets, &mut mark)
        }
}

// The number for the table as it would be without the records that go, its counts judged or not.
fn number_of(table: &[u8], gone: &[u8; Room::MOST], counted: bool) -> u8
    ensures { result ≡ judged_but counted (without gone.now table.now) }
{
    if !is_sized(table) {
        1
    } else if !is_sound(table, gone, counted) {
        2
    } else {
        0
    }
}

// The number for the table as it would be without the records that go, those that `gone` marks, whatever their kind; its counts are not judged.
pub fn judge_without(table: &[u8], gone: &[u8; Room::MOST]) -> u8
    ensures { result ≡ judged_shape (without gone.now table.now) }
{
    number_of(table, gone, false)
}

// Document 01's number for the table: 1 if it is not sized, 2 if it is not sound, and else 0.
pub fn judge(table: &[u8]) -> u8
    ensures { result ≡ judged table.now }
{
    number_of(table, &[0u8; Room::MOST], true)
}
