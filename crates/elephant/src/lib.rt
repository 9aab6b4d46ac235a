// The file box: its functions and mending, as documents 01 and 02 have them. What a caller relies on is here: two equations.
#![tactic(auto)]

mod change;
mod copying;
mod delete;
mod destroy;
mod entrance;
mod filing;
mod making;
mod place;
mod removal;
mod reply;
mod rewriting;

ghost use Rattle.std.specs.Prelude.{[], ◌≡◌, ◌≤◌};
ghost use Rattle.paper.specs.Layout.{boxed};
ghost use Rattle.paper.specs.Answer.{requested, mending};
ghost use Rattle.answers.specs.Promised.{Promised};
ghost use Rattle.answers.specs.Shown.{told, answer_of};
ghost use Rattle.reader.specs.Asked.{shown_read};
ghost use Rattle.paper.specs.Request.{read};
ghost use Rattle.elephant.specs.Entrance.{unread_by};

use crate::entrance::{admit, bears_text, check_entrance, grant};
use answers::number::Number;
use answers::{Answer, Place, Refusal};
use reader::request;
use reader::request::{Request, read_line};
use records::heading::Heading;

// What the reader refuses, as the answer has it: the argument and the link are small numbers.
fn unread(refusal: request::Refusal) -> Refusal
    requires { (refusal.place ≤ 8) × (refusal.link ≤ 65535) }
    ensures { result ≡ unread_by refusal }
{
    Refusal {
        number: refusal.number,
        place: Place {
            argument: refusal.place as u32,
            link: refusal.link as u32,
        },
    }
}

// The request that a line is: 4 to 9.
fn read(line: &[u8]) -> Result<Request, Refusal>
    ensures { told result ≡ shown_read (read line.now) }
{
    read_line(line).map_err(unread)
}

// The answer, or what refuses: 1 to 3, 4 to 9, 10, and what the function refuses.
fn answered(
    table: &mut [u8],
    line: &[u8],
    text: &[u8],
    reply: &mut [u8],
    user: u32,
    stop: u32,
) -> Result<Answer, Refusal>
    ensures { Promised (requested boxed table.old line.now text.now reply.old user stop)
        (answer_of result) table.new reply.new }
{
    check_entrance(table, user)?;
    let asked = read(line)?;
    if !bears_text(asked) {
        return admit(table, line, text, reply, user, stop, asked);
    }
    if Heading::MOST_LENGTH < text.len() {
        return Err(Refusal::whole(Number::TextTooLong, 0));
    }
    grant(table, line, text, reply, user, stop, asked)
}

// A request on a table, by its line, its text, its user and the stop number: the answer, with the table and the reply written.
pub fn request(
    table: &mut [u8],
    line: &[u8],
    text: &[u8],
    reply: &mut [u8],
    user: u32,
    stop: u32,
) -> Answer
    ensures { Promised (requested boxed table.old line.now text.now reply.old user stop)
        result table.new reply.new }
{
    answered(table, line, text, reply, user, stop).unwrap_or_else(Answer::from)
}

// A table mended: its records that belong to no file cleared, exactly the first `stop` of them. "Its answer has place, names and
// bytes 0, displaced no, and the stores made."
pub fn mend(table: &mut [u8], stop: u32) -> Answer
    ensures { Promised (mending boxed table.old stop) result table.new [] }
{
    let mended = mending::mend(table, stop);
    Answer::placeless(mended.number, 0, mended.stores)
}
