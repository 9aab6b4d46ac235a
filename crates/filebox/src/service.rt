// The input, byte by byte: a line grows, ends and is answered.
ghost use Rattle.std.specs.Prelude.{◌≡◌, length};
ghost use Rattle.filebox.specs.Box.{answered, grown, ended, stepped, fed, finished};
ghost use Rattle.filebox.specs.Shows.{Follows};
ghost use Rattle.filebox.specs.Spelled.{Asks};

use crate::held::{Held, Memory, first, keep};
use crate::output::{Answered, put, spell_answer};

// "acts for user 1 with k 65,535"
const USER: u32 = 1;

const STOP: u32 = 65535;

// The request that is held is made, and its answer put into words.
fn ask(memory: &mut Memory, held: Held, words: &mut [u8]) -> Answered
    requires { length words.old ≡ 147 }
    ensures { Asks memory.old.table memory.old.index memory.old.line memory.old.text memory.old.reply
        held memory.new.table memory.new.index memory.new.reply words.new result
        × (memory.new.line ≡ memory.old.line) × (memory.new.text ≡ memory.old.text) }
{
    let answer = indexed::request(
        &mut memory.table,
        &mut memory.index,
        first(&memory.line, held.line),
        first(&memory.text, held.text),
        &mut memory.reply,
        USER,
        STOP,
    );
    Answered {
        line: spell_answer(answer, words),
        reply: answer.bytes,
    }
}

// .. and written, unless an earlier one could not be.
fn answer(memory: &mut Memory, held: Held) -> Held
    ensures { Follows answered memory.old.table memory.old.index memory.old.line memory.old.text memory.old.reply
        held memory.new.table memory.new.index memory.new.line memory.new.text memory.new.reply result }
{
    let mut words = [0u8; 147];
    let told = ask(memory, held, &mut words);
    let line = first(&words, told.line);
    let heard = held.heard && put(&mut memory.out, line, first(&memory.reply, told.reply));
    Held::new(heard)
}

// A byte of a line or of a text.
fn grow(memory: &mut Memory, held: Held, b: u8) -> Held
    ensures { Follows (λ x. grown x b) memory.old.table memory.old.index memory.old.line memory.old.text memory.old.reply
        held memory.new.table memory.new.index memory.new.line memory.new.text memory.new.reply result }
{
    if held.asked {
        Held {
            text: keep(&mut memory.text, held.text, b),
            ..held
        }
    } else {
        Held {
            line: keep(&mut memory.line, held.line, b),
            stage: held.stage.after(b),
            ..held
        }
    }
}

// "takes the line after a WRS, refused or not, as its text", and that after a WRS*
fn end(memory: &mut Memory, held: Held) -> Held
    ensures { Follows ended memory.old.table memory.old.index memory.old.line memory.old.text memory.old.reply
        held memory.new.table memory.new.index memory.new.line memory.new.text memory.new.reply result }
{
    if !held.asked && held.stage.takes_text() {
        Held {
            asked: true,
            ..held
        }
    } else {
        answer(memory, held)
    }
}

// A byte of the input: byte 10 ends a line or a text.
fn step(memory: &mut Memory, held: Held, b: u8) -> Held
    ensures { Follows (λ x. stepped x b) memory.old.table memory.old.index memory.old.line memory.old.text memory.old.reply
        held memory.new.table memory.new.index memory.new.line memory.new.text memory.new.reply result }
{
    if b == b'\n' {
        end(memory, held)
    } else {
        grow(memory, held, b)
    }
}

// What was read.
pub(crate) fn feed(memory: &mut Memory, held: Held, input: &[u8]) -> Held
    ensures { Follows (λ x. fed x input.now) memory.old.table memory.old.index memory.old.line memory.old.text memory.old.reply
        held memory.new.table memory.new.index memory.new.line memory.new.text memory.new.reply result }
{
    let mut now = held;
    for &b in input {
        now = step(memory, now, b);
    }
    now
}

// At the end of the input: a line with no byte 10, or a WRS or a WRS* with no text line.
pub(crate) fn finish(memory: &mut Memory, held: Held) -> Held
    ensures { Follows finished memory.old.table memory.old.index memory.old.line memory.old.text memory.old.reply
        held memory.new.table memory.new.index memory.new.line memory.new.text memory.new.reply result }
{
    if held.asked || 0 < held.line {
        answer(memory, held)
    } else {
        held
    }
}
