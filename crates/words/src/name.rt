// Link names, chains and base names.
ghost use Rattle.std.specs.Prelude.{◌≡◌, length};
ghost use Rattle.paper.specs.Name.{link_name, pointed, chain, well_formed, legal_base, base_name};
ghost use Rattle.paper.specs.Request.{first_wrong, first_link};
ghost use Rattle.words.specs.Place.{names_from};
ghost use Rattle.words.specs.Shown.{some_link};

use crate::class::{in_base, in_name};
use crate::line::{lone_word, name, next_name};
use records::bytes::byte_at;
use records::entry::Entry;
use records::name::are_same;

// Names joined by colons.
#[derive(Clone, Copy)]
struct Chain;

impl Chain {
    // The most names that a chain has.
    const MOST: usize = 16;
}

// Whether a name is a link name: 1 to 10 characters.
#[tactic(auto, using(crate::proofs::Names::link_tests))]
pub fn is_link_name(n: &[u8]) -> bool
    ensures { result ≡ link_name n.now }
{
    matches!(n.len(), 1..=Entry::MOST_NAME) && n.iter().all(|b| in_name(*b))
}

#[tactic(auto, unfolding(paper::specs::Name::pointed))]
pub fn is_pointed(n: &[u8]) -> bool
    ensures { result ≡ pointed n.now }
{
    byte_at(n, 0) == b'.'
}

// How many names the word at p has.
#[tactic(auto, using(crate::proofs::Names::name_counts))]
pub fn count_names(line: &[u8], p: usize) -> usize
    ensures { result ≡ length (names_from line.now p) }
{
    let mut i = p;
    let mut n = 1;
    while let Some(q) = next_name(line, i) {
        n += 1;
        i = q;
    }
    n
}

// The number of the first written name of the chain at p: 2 where `.W` is supplied.
#[tactic(auto, using(crate::proofs::Names::names_start))]
fn first_link(line: &[u8], p: usize) -> usize
    ensures { result ≡ first_link (names_from line.now p) }
{
    if is_pointed(name(line, p)) { 1 } else { 2 }
}

// How many names the chain at p has, the supplied `.W` counted.
#[tactic(auto, using(crate::proofs::Names::link_counts))]
pub fn count_links(line: &[u8], p: usize) -> usize
    ensures { result ≡ length (chain (names_from line.now p)) }
{
    count_names(line, p) + first_link(line, p) - 1
}

// The number of the first name of the chain at p that is no link name, if there is one.
#[tactic(auto, using(crate::proofs::Names::wrong_steps))]
pub fn first_wrong(line: &[u8], p: usize) -> Option<usize>
    ensures { result ≡ some_link (first_wrong (first_link (names_from line.now p)) (names_from line.now p)) }
{
    let mut i = p;
    let mut k = first_link(line, p);
    while is_link_name(name(line, i)) {
        i = next_name(line, i)?;
        k += 1;
    }
    Some(k)
}

// Whether the word at p is a well-formed chain.
#[tactic(auto, using(crate::proofs::Names::well_tests))]
pub fn is_well_formed(line: &[u8], p: usize) -> bool
    ensures { result ≡ well_formed (names_from line.now p) }
{
    first_wrong(line, p).is_none()
        && count_links(line, p) <= Chain::MOST
        && !are_same(lone_word(line, p), b"-")
}

// Whether a name is a legal base name.
pub fn is_legal_base(n: &[u8]) -> bool
    ensures { result ≡ legal_base n.now }
{
    matches!(n, [b'.', b'R' | b'W' | b'G' | b'T'])
        || is_pointed(n) && 3 <= n.len() && n.iter().all(|b| in_base(*b))
}

// Whether the base name of the chain at p is legal; the supplied `.W` is.
#[tactic(auto, using(crate::proofs::Names::base_tests))]
pub fn has_legal_base(line: &[u8], p: usize) -> bool
    ensures { result ≡ legal_base (base_name (names_from line.now p)) }
{
    let n = name(line, p);
    !is_pointed(n) || is_legal_base(n)
}
