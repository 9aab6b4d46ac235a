// The chain of an argument: its walk, and the place that a refusal gives, the argument and a link of its chain. A line has at most 256
// bytes, so a link's number is small.
ghost use Rattle.std.specs.Prelude.{◌≡◌, ◌≤◌, length};
ghost use Rattle.paper.specs.Layout.{boxed};
ghost use Rattle.paper.specs.Check.{at_link, refusal_at};
ghost use Rattle.paper.specs.Effect.{end_of};
ghost use Rattle.paper.specs.Walk.{to_directory, ended};
ghost use Rattle.answers.specs.Shown.{place_shown, told};
ghost use Rattle.walk.specs.Shown.{begins, chain_at};
ghost use Rattle.elephant.specs.Walks.{word_of, walked_by, ended_by};

use answers::{Place, Refusal};
use walk::chain::{last_link, to_directory};
use walk::end::{Ends, to_end};
use walk::state::{State, Stop};
use words::begin::Begin;

// A link of an argument.
fn at_link(argument: u32, link: usize) -> Place
    requires { link ≤ 65535 }
    ensures { result ≡ place_shown (at_link argument link) }
{
    Place {
        argument,
        link: link as u32,
    }
}

// "in a walk the link refused"
fn stopped(argument: u32, stop: Stop) -> Refusal
    requires { stop.link ≤ 65535 }
    ensures { result ≡ record { number = stop.number; place = place_shown (at_link argument stop.link) } }
{
    Refusal {
        number: stop.number,
        place: at_link(argument, stop.link),
    }
}

// Where an argument that is a chain starts in the line, and how it begins.
#[derive(Clone, Copy)]
pub(crate) struct Chain {
    pub at: usize,
    pub begin: Begin,
}

impl Chain {
    // A chain of the user's own.
    pub(crate) fn own(at: usize) -> Self
        ensures { result ≡ record { at = at; begin = Begin.Own } }
    {
        Chain {
            at,
            begin: Begin::Own,
        }
    }

    // "in an end check the chain's last link"
    pub(crate) fn end(self, line: &[u8], argument: u32) -> Place
        requires { length line.now ≤ 256 }
        ensures { result ≡ place_shown (end_of argument (word_of line.now self)) }
    {
        at_link(argument, last_link(line, self.at, self.begin))
    }

    // "a new name only to its directory"
    pub(crate) fn to_directory(
        self,
        table: &[u8],
        line: &[u8],
        argument: u32,
        user: u32,
    ) -> Result<State, Refusal>
        requires { length line.now ≤ 256 }
        ensures { told result ≡ walked_by argument
            (to_directory boxed table.now 1 (begins user self.begin) (chain_at line.now self.at self.begin)) }
    {
        to_directory(table, line, self.at, self.begin, user).map_err(|stop| stopped(argument, stop))
    }

    // "an old name to its file"
    pub(crate) fn to_end(
        self,
        table: &[u8],
        line: &[u8],
        argument: u32,
        user: u32,
    ) -> Result<Ends, Refusal>
        requires { length line.now ≤ 256 }
        ensures { told result ≡ ended_by argument (ended boxed table.now (begins user self.begin) (chain_at line.now self.at self.begin)) }
    {
        to_end(table, line, self.at, self.begin, user).map_err(|stop| stopped(argument, stop))
    }
}
