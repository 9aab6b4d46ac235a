// The file box over standard input and output: a request on each line, the text of a WRS or a WRS* on the line after it; for
// each, the answer's seven numbers on a line, then the reply bytes.
#![tactic(auto)]

mod first_word;
mod held;
mod output;
mod service;

ghost use Rattle.std.specs.Prelude.{true, ◌≡◌};
ghost use Rattle.filebox.specs.Box.{begins_true};
ghost use Rattle.filebox.specs.Shows.{Over};

use crate::held::{Held, Memory};
use crate::service::{feed, finish};
use std::io::{Read, Stdin};

// Reads up to the end of the input, or until it cannot be read or an answer could not be written. A proved loop has to end, and nothing says
// that the input does: so the reads are counted, up to a number that no run uses up.
fn serve(mut input: Stdin, memory: &mut Memory)
    requires { begins_true memory.old.table memory.old.index ≡ true }
    ensures { Over memory.old.table memory.old.index memory.old.reply memory.new.table memory.new.index memory.new.reply }
{
    let mut chunk = io::buffer();
    let mut held = Held::new(true);
    for _ in 0..u64::MAX {
        let n = input.read(&mut chunk).unwrap_or(0);
        held = feed(memory, held, &chunk[..n]);
        if n == 0 || !held.heard {
            break;
        }
    }
    finish(memory, held);
}

// "all free at the start": no entry in the index
fn main(rt: HostRuntime) {
    let mut memory = Memory {
        table: [0; 32768],
        index: [65535; 1024],
        line: [0; 257],
        text: [0; 24001],
        reply: [0; 24000],
        out: rt.stdout(),
    };
    serve(rt.stdin(), &mut memory);
}
