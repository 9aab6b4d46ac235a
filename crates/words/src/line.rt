// Words and names of a line, by the places where they start: a request carries those places, so line and place are two parameters.
ghost use Rattle.std.specs.Prelude.{◌≡◌, length};
ghost use Rattle.paper.specs.Line.{word, words, legal_line};
ghost use Rattle.words.specs.Place.{cut, gap_end, lone_of, names_from, next_word};
ghost use Rattle.words.specs.Shown.{next_at};

use crate::class::{in_line, name_end, past_blanks};
use records::bytes::byte_at;

// A request line.
#[derive(Clone, Copy)]
struct Line;

impl Line {
    // The most bytes that a line has.
    const MOST: usize = 256;
}

// Whether the line has at most 256 bytes, each 32..95.
#[tactic(auto, using(crate::proofs::Names::line_tests))]
pub fn is_legal_line(line: &[u8]) -> bool
    ensures { result ≡ legal_line line.now }
{
    line.len() <= Line::MOST && line.iter().all(|b| in_line(*b))
}

// The name at p: that stretch of the line itself.
#[tactic(auto, using(crate::proofs::Reaches::reaches))]
pub fn name(line: &[u8], p: usize) -> &[u8]
    ensures { result.now ≡ cut line.now p }
{
    if p <= line.len() {
        &line[p..name_end(line, p)]
    } else {
        &line[..0]
    }
}

// Past the blanks after the name at p.
fn gap_end(line: &[u8], p: usize) -> usize
    ensures { result ≡ gap_end line.now p }
{
    past_blanks(line, name_end(line, p))
}

// Where the name after the one at p starts, in the same word.
pub fn next_name(line: &[u8], p: usize) -> Option<usize>
    ensures { result ≡ next_at line.now p }
{
    let q = gap_end(line, p);
    if byte_at(line, q) == b':' {
        Some(past_blanks(line, q + 1))
    } else {
        None
    }
}

// The name that the word at p is: that stretch of the line itself; of a chain of several names, nothing.
#[tactic(auto, using(crate::proofs::Names::lone_names))]
pub fn lone_word(line: &[u8], p: usize) -> &[u8]
    ensures { result.now ≡ lone_of (names_from line.now p) }
{
    if next_name(line, p).is_some() {
        &line[..0]
    } else {
        name(line, p)
    }
}

// Where the word after the one at p starts, or the line's end.
#[tactic(auto, using(crate::proofs::Names::next_steps))]
pub fn next_word(line: &[u8], p: usize) -> usize
    ensures { result ≡ next_word line.now p }
{
    let mut i = p;
    while let Some(q) = next_name(line, i) {
        i = q;
    }
    gap_end(line, i).min(line.len())
}

// Where word k of the line starts, from 0, or the line's end.
#[tactic(auto, using(crate::proofs::Names::word_steps))]
pub fn word_at(line: &[u8], k: usize) -> usize
    ensures { result ≡ (word line.now k).start }
{
    let mut p = past_blanks(line, 0);
    for _ in 0..k {
        p = next_word(line, p);
    }
    p
}

// How many words the line has. A `while`: it goes from word to word, and what it counts is not the place.
#[tactic(auto, using(crate::proofs::Names::word_counts))]
pub fn count_words(line: &[u8]) -> usize
    ensures { result ≡ length (words line.now) }
{
    let mut p = past_blanks(line, 0);
    let mut n = 0;
    while p < line.len() {
        p = next_word(line, p);
        n += 1;
    }
    n
}
