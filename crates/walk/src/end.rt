// The walk of a name to its file, and of two names, an old one and a new one.
ghost use Rattle.std.specs.Prelude.{◌≡◌};
ghost use Rattle.paper.specs.Layout.{boxed};
ghost use Rattle.paper.specs.Walk.{to_directory, ended};
ghost use Rattle.walk.specs.Shown.{begins, chain_at};
ghost use Rattle.walk.specs.Ends.{end_meant, both_of, both_meant};

use crate::chain::{to_directory, to_last};
use crate::state::{State, Stop};
use words::begin::Begin;

// Where one name leads, or two: its directory and its file, or the directory of a new name and the file of an old one.
#[derive(Clone, Copy)]
pub struct Ends {
    pub directory: State,
    pub file: State,
}

// The argument, 1 or 2, whose walk stopped, and why.
#[derive(Clone, Copy, PartialEq, Eq)]
pub struct BothStop {
    pub place: u32,
    pub stop: Stop,
}

// "an old name to its file"
#[tactic(auto, unfolding(paper::specs::Walk::ended))]
pub fn to_end(table: &[u8], line: &[u8], p: usize, begin: Begin, user: u32) -> Result<Ends, Stop>
    ensures { end_meant result ≡ ended boxed table.now (begins user begin) (chain_at line.now p begin) }
{
    let directory = to_directory(table, line, p, begin, user)?;
    let file = to_last(table, line, p, begin, directory)?;
    Ok(Ends { directory, file })
}

// "the arguments are walked left to right", "a new name only to its directory"
pub fn to_both(
    table: &[u8],
    line: &[u8],
    from: Begin,
    old: usize,
    to: Begin,
    new: usize,
    user: u32,
) -> Result<Ends, BothStop>
    ensures { both_meant result ≡ both_of (ended boxed table.now (begins user from) (chain_at line.now old from))
        (to_directory boxed table.now 1 (begins user to) (chain_at line.now new to)) }
{
    let ends = to_end(table, line, old, from, user).map_err(|stop| BothStop { place: 1, stop })?;
    let directory = to_directory(table, line, new, to, user).map_err(|stop| BothStop {
        place: 2,
        stop,
    })?;
    Ok(Ends {
        directory,
        file: ends.file,
    })
}
