// The file box with its index: one layer above `elephant`, which knows of none. What a caller relies on is here: two equations.
#![tactic(auto)]

ghost use Rattle.std.specs.Prelude.{[], ◌≡◌};
ghost use Rattle.paper.specs.Answer.{plain};
ghost use Rattle.paper.specs.Check.{whole};
ghost use Rattle.paper.specs.Index.{keeping, mend_keeping};
ghost use Rattle.answers.specs.Shown.{shown};
ghost use Rattle.answers.specs.Promised.{Keeps};
ghost use Rattle.indexed.specs.Refused.{refused_with};

use answers::number::Number;
use answers::{Answer, Refusal};
use records::bytes::rooms;

// An answer's numbers that this layer tells apart. 1: "table length no multiple of 32, or above 65,536"; 2: the table is not sound.
const UNSIZED: u32 = Number::Unsized as u32;

const UNSOUND: u32 = Number::Unsound as u32;

// "stop number reached; the stores made stand"
const STOPPED: u32 = Number::Stopped as u32;

// 1 or 2, and 26 where the table is sound.
fn refuse(table: &[u8]) -> Answer
    ensures { result ≡ shown (plain (refused_with table.now) (whole 0) 0 0) }
{
    let number = Number::try_from(judge::judge(table)).unwrap_or(Number::IndexUntrue);
    Answer::from(Refusal::whole(number, 0))
}

// A request on a table and its index, by its line, its text, its user and the stop number: the answer, with table, index and reply written.
pub fn request(
    table: &mut [u8],
    index: &mut [u16],
    line: &[u8],
    text: &[u8],
    reply: &mut [u8],
    user: u32,
    stop: u32,
) -> Answer
    ensures { Keeps (keeping table.old index.old line.now text.now reply.old user stop)
        result table.new index.new reply.new }
{
    if !index::is_true(table, index) {
        return refuse(table);
    }
    let answer = elephant::request(table, line, text, reply, user, stop);
    if answer.number != STOPPED && answer.stores != 0 {
        index::repair(table, index);
    }
    answer
}

// A table mended, and its index built afresh: of a list only the length is judged, and straight after 2, before any store.
pub fn mend(table: &mut [u8], index: &mut [u16], stop: u32) -> Answer
    ensures { Keeps (mend_keeping table.old index.old stop) result table.new index.new [] }
{
    if index.len() != rooms(table).0 {
        let tried = elephant::mend(table, 0);
        return match tried.number {
            UNSIZED | UNSOUND => tried,
            _ => Answer::from(Refusal::whole(Number::IndexUntrue, 0)),
        };
    }
    let answer = elephant::mend(table, stop);
    if answer.number == 0 {
        index::repair(table, index);
    }
    answer
}
