// One link of a walk: a state by value that takes a name and hands the next state back.
ghost use Rattle.std.specs.Prelude.{◌≡◌};
ghost use Rattle.paper.specs.Layout.{boxed};
ghost use Rattle.paper.specs.Walk.{start, applies, look, enter, follow};
ghost use Rattle.walk.specs.Shown.{meant, shown, walked_meant, step_at};

use answers::number::Number;
use records::bytes::Room;
use records::code::Code;
use records::entry::{Holder, entry_code, heading_named};
use records::heading::{heading_code, is_directory};
use scans::find;

// Where the next name is looked up; the entry last followed, or 65,535 for none; the code that applies there.
// An `Option` of the entry would be no plainer: `enter` and whoever has the end of a walk would ask again for what is there.
#[derive(Clone, Copy)]
pub struct State {
    pub holder: Holder,
    pub entry: Room,
    pub code: Code,
}

// Why a walk stopped, and the link that it stopped at, from 1.
#[derive(Clone, Copy, PartialEq, Eq)]
pub struct Stop {
    pub number: Number,
    pub link: usize,
}

// "What applies to a file is the union of its heading's code and the code of the one entry last followed"
#[tactic(auto, unfolding(paper::specs::Walk::applies))]
fn applies(table: &[u8], entry: Room) -> Code
    ensures { result.0 ≡ applies table.now entry.0 }
{
    let heading = heading_named(table, entry);
    heading_code(table, heading).joined(entry_code(table, entry))
}

impl State {
    // No entry was followed yet.
    pub const NONE: usize = 65535;

    // A walk starts in a user's base list.
    pub fn start(user: u32) -> Self
        ensures { result ≡ shown (start user) }
    {
        State {
            holder: Holder {
                heading: Room(Holder::BASE),
                user,
            },
            entry: Room(State::NONE),
            code: Code(0),
        }
    }

    // The entry that bears the name of this link here.
    #[tactic(auto, unfolding(paper::specs::Walk::look))]
    pub fn look(self, table: &[u8], name: &[u8], link: usize) -> Result<State, Stop>
        ensures { walked_meant result ≡ step_at link (look boxed table.now (meant self) name.now) }
    {
        let Some(entry) = find(table, self.holder, name) else {
            return Err(Stop {
                number: Number::NotThere,
                link,
            });
        };
        let code = applies(table, entry);
        Ok(State {
            entry,
            code,
            ..self
        })
    }

    // Into the directory that the entry last followed names.
    #[tactic(auto, unfolding(paper::specs::Walk::enter))]
    pub fn enter(self, table: &[u8], link: usize) -> Result<State, Stop>
        ensures { walked_meant result ≡ step_at link (enter table.now (meant self)) }
    {
        let heading = heading_named(table, self.entry);
        if !is_directory(table, heading) {
            return Err(Stop {
                number: Number::NoDirectory,
                link,
            });
        }
        if self.code.inhibits_read() {
            return Err(Stop {
                number: Number::ReadInhibited,
                link,
            });
        }
        Ok(State {
            holder: Holder { heading, user: 0 },
            ..self
        })
    }

    // A link before the last.
    #[tactic(auto, unfolding(paper::specs::Walk::follow))]
    pub fn follow(self, table: &[u8], name: &[u8], link: usize) -> Result<State, Stop>
        ensures { walked_meant result ≡ step_at link (follow boxed table.now (meant self) name.now) }
    {
        self.look(table, name, link)?.enter(table, link)
    }
}
