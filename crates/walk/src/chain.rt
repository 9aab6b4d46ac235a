// The walk of a chain out of the lent line.
ghost use Rattle.std.specs.Prelude.{◌∷◌, ◌≡◌, ◌≤◌, length, drop};
ghost use Rattle.paper.specs.Layout.{boxed};
ghost use Rattle.paper.specs.Name.{chain};
ghost use Rattle.paper.specs.Walk.{to_directory, last_name, to_last};
ghost use Rattle.words.specs.Place.{names_from};
ghost use Rattle.walk.specs.Shown.{meant, walked_meant, begins, chain_at};

use crate::state::{State, Stop};
use words::begin::Begin;
use words::line::{name, next_name};
use words::name::{count_links, count_names, is_pointed};

// Every name of the word at p but the last is followed, the first as this link.
#[tactic(auto, using(crate::proofs::Chains::name_steps))]
fn follow_names(
    table: &[u8],
    line: &[u8],
    p: usize,
    start: State,
    link: usize,
) -> Result<State, Stop>
    requires { link ≤ 2 }
    ensures { walked_meant result ≡ to_directory boxed table.now link (meant start) (names_from line.now p) }
{
    let mut state = start;
    let mut k = link;
    let mut i = p;
    while let Some(q) = next_name(line, i) {
        state = state.follow(table, name(line, i), k)?;
        k += 1;
        i = q;
    }
    Ok(state)
}

// A base name that stands before the names of the word at p is followed, then they are.
#[tactic(auto, using(crate::proofs::Chains::base_steps))]
fn follow_base(
    table: &[u8],
    line: &[u8],
    p: usize,
    start: State,
    base: &[u8],
) -> Result<State, Stop>
    ensures { walked_meant result ≡ to_directory boxed table.now 1 (meant start) (base.now ∷ names_from line.now p) }
{
    follow_names(table, line, p, start.follow(table, base, 1)?, 2)
}

// The chain at p in a user's own base list, `.W` supplied where it has no base name.
#[tactic(auto, using(crate::proofs::Chains::own_names))]
fn own_directory(table: &[u8], line: &[u8], p: usize, start: State) -> Result<State, Stop>
    ensures { walked_meant result ≡ to_directory boxed table.now 1 (meant start) (chain (names_from line.now p)) }
{
    if is_pointed(name(line, p)) {
        follow_names(table, line, p, start, 1)
    } else {
        follow_base(table, line, p, start, b".W")
    }
}

// A base name in place of the first name of the word at p.
#[tactic(auto, using(crate::proofs::Chains::instead_steps))]
fn instead_directory(
    table: &[u8],
    line: &[u8],
    p: usize,
    start: State,
    base: &[u8],
) -> Result<State, Stop>
    ensures { walked_meant result ≡ to_directory boxed table.now 1 (meant start) (base.now ∷ drop 1 (names_from line.now p)) }
{
    match next_name(line, p) {
        Some(q) => follow_base(table, line, q, start, base),
        None => Ok(start),
    }
}

// "a new name only to its directory": every name but the last of the chain at p, which begins as this.
#[tactic(auto, unfolding(paper::specs::Name::chain, paper::specs::Name::pointed))]
pub fn to_directory(
    table: &[u8],
    line: &[u8],
    p: usize,
    begin: Begin,
    user: u32,
) -> Result<State, Stop>
    ensures { walked_meant result ≡ to_directory boxed table.now 1 (begins user begin) (chain_at line.now p begin) }
{
    match begin {
        Begin::Own => own_directory(table, line, p, State::start(user)),
        Begin::Take(owner) => instead_directory(table, line, p, State::start(owner), b".T"),
        Begin::Give(owner) => instead_directory(table, line, p, State::start(owner), b".G"),
    }
}

// The last name of the chain at p.
#[tactic(auto, using(crate::proofs::Chains::last_steps))]
pub fn last_name(line: &[u8], p: usize) -> &[u8]
    ensures { result.now ≡ last_name (chain (names_from line.now p)) }
{
    let mut i = p;
    while let Some(q) = next_name(line, i) {
        i = q;
    }
    name(line, i)
}

// The number of the last link of the chain at p, which begins as this.
#[tactic(auto, using(crate::proofs::Chains::instead_names), unfolding(paper::specs::Name::chain, paper::specs::Name::pointed))]
pub fn last_link(line: &[u8], p: usize, begin: Begin) -> usize
    ensures { result ≡ length (chain_at line.now p begin) }
{
    match begin {
        Begin::Own => count_links(line, p),
        Begin::Take(_) | Begin::Give(_) => count_names(line, p),
    }
}

// From the directory d to the last name, where a base name stands in place of the first name of the word at p.
#[tactic(auto, using(crate::proofs::Chains::instead_looks))]
fn instead_last(table: &[u8], line: &[u8], p: usize, d: State, base: &[u8]) -> Result<State, Stop>
    ensures { walked_meant result ≡ to_last boxed table.now (meant d) (base.now ∷ drop 1 (names_from line.now p)) }
{
    match next_name(line, p) {
        Some(_) => d.look(table, last_name(line, p), count_names(line, p)),
        None => d.look(table, base, 1),
    }
}

// From the directory d to the last name of the chain at p, which begins as this.
#[tactic(auto, unfolding(paper::specs::Name::chain, paper::specs::Name::pointed))]
pub fn to_last(table: &[u8], line: &[u8], p: usize, begin: Begin, d: State) -> Result<State, Stop>
    ensures { walked_meant result ≡ to_last boxed table.now (meant d) (chain_at line.now p begin) }
{
    match begin {
        Begin::Own => d.look(table, last_name(line, p), count_links(line, p)),
        Begin::Take(_) => instead_last(table, line, p, d, b".T"),
        Begin::Give(_) => instead_last(table, line, p, d, b".G"),
    }
}
