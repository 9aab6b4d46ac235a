// The memory that the program runs in, and what it holds of the line that is being read and of its text: their first bytes.
ghost use Rattle.std.specs.Prelude.{cond, ◌≡◌, ◌+◌, ltb, length, take, set};
ghost use Rattle.filebox.specs.Shows.{fresh};

use crate::first_word::Stage;
use std::io::Stdout;

// "a table of at most 1,024 records, .. and a reply buffer of 24,000 bytes"; the table's index, a line and a text; and where the answers go.
#[derive(Drop)]
pub(crate) struct Memory {
    pub table: [u8; 32768],
    pub index: [u16; 1024],
    pub line: [u8; 257],
    pub text: [u8; 24001],
    pub reply: [u8; 24000],
    pub out: Stdout,
}

#[derive(Clone, Copy)]
pub(crate) struct Held {
    // how many bytes of the line are held, and what its first word is
    pub line: usize,
    pub stage: Stage,
    // whether the line is ended and its text is being read, and how many bytes of the text are held: 0 where it is not, so none is absent
    pub asked: bool,
    pub text: usize,
    // whether every answer was written
    pub heard: bool,
}

impl Held {
    // At the start of a line.
    pub(crate) fn new(heard: bool) -> Held
        ensures { result ≡ fresh heard }
    {
        Held {
            line: 0,
            stage: Stage::Blanks,
            asked: false,
            text: 0,
            heard,
        }
    }
}

// The first n bytes.
pub(crate) fn first(s: &[u8], n: usize) -> &[u8]
    ensures { result.now ≡ take n s.now }
{
    &s[..n.min(s.len())]
}

// One byte more after the first n, where there is room.
pub(crate) fn keep(s: &mut [u8], n: usize, b: u8) -> usize
    ensures { (result ≡ cond (ltb n (length s.old)) (n + 1) n) × (s.new ≡ set s.old n b) }
{
    if n < s.len() {
        s[n] = b;
        n + 1
    } else {
        n
    }
}
