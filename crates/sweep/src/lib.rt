// The sweep: which headings a chain of entries from any user's base files reaches, and the stores that clear what none reaches.
#![tactic(auto)]

mod reach;
mod stores;

ghost use Rattle.std.specs.Prelude.{[]};
ghost use Rattle.paper.specs.Sweep.{sweeping};
ghost use Rattle.answers.specs.Promised.{Keeps};

use crate::stores::store_sweep;
use answers::number::Number;
use answers::{Answer, Refusal};

// "It is a call like mending": judged before any store; cut, the index stays as lent, and else it is true for the table after.
pub fn sweep(table: &mut [u8], index: &mut [u16], stop: u32) -> Answer
    ensures { Keeps (sweeping table.old index.old stop) result table.new index.new [] }
{
    if let Ok(number) = Number::try_from(judge::judge(table)) {
        return Answer::from(Refusal::whole(number, 0));
    }
    if !index::is_true(table, index) {
        return Answer::from(Refusal::whole(Number::IndexUntrue, 0));
    }
    let needed = store_sweep(table, stop as usize) as u32;
    if stop < needed {
        return Answer::placeless(u32::from(Number::Stopped), 0, stop);
    }
    let done = Answer::placeless(0, 0, needed);
    if needed != 0 {
        index::repair(table, index);
    }
    done
}
