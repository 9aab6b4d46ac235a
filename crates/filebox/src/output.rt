// An answer as it is written to standard output.
ghost use Rattle.std.specs.Prelude.{◌≡◌, ◌+◌, ◌≤◌, length, take};
ghost use Rattle.filebox.specs.Spelled.{Spelled, Line};

use answers::Answer;
use records::store::copy_in;
use std::io::{Stdout, Write};

// A number in decimal from a place on, and a byte after it; answers the place past them.
fn spell_wide(out: &mut [u8], at: usize, n: u64, after: u8) -> usize
    requires { at + 21 ≤ length out.old }
    ensures { Spelled out.old at n after result out.new }
{
    let mut digits = [0u8; 20];
    let k = io::decimal(n, &mut digits);
    copy_in(out, at, &digits[..k]);
    let e = at + k;
    out[e] = after;
    e + 1
}

// The same of 32 bits.
fn spell(out: &mut [u8], at: usize, n: u32, after: u8) -> usize
    requires { at + 21 ≤ length out.old }
    ensures { Spelled out.old at n after result out.new }
{
    spell_wide(out, at, u64::from(n), after)
}

// "each answer's .. numbers in decimal on a line, a blank between, displaced as 0 or 1": the place is two of the seven
pub(crate) fn spell_answer(a: Answer, out: &mut [u8]) -> usize
    requires { length out.old ≡ 147 }
    ensures { Line a (take result out.new) }
{
    let place = spell(out, 0, a.number, b' ');
    let link = spell(out, place, a.place, b' ');
    let names = spell(out, link, a.link, b' ');
    let displaced = spell(out, names, a.names, b' ');
    let bytes = spell(out, displaced, a.displaced, b' ');
    let stores = spell_wide(out, bytes, a.bytes as u64, b' ');
    spell(out, stores, a.stores, b'\n')
}

// How many bytes of an answer's line are to be written, and how many of the reply.
#[derive(Clone, Copy)]
pub(crate) struct Answered {
    pub line: usize,
    pub reply: usize,
}

// .. "then the reply bytes". Answers whether all of it was written.
pub(crate) fn put(out: &mut Stdout, line: &[u8], reply: &[u8]) -> bool {
    out.write_all(line).is_ok() && out.write_all(reply).is_ok()
}
