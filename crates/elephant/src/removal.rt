// DEL and DST: name by name, what one does at its end, and then the next.
ghost use Rattle.std.specs.Prelude.{◌≡◌, ◌≤◌, length, drop};
ghost use Rattle.paper.specs.Line.{words, word};
ghost use Rattle.answers.specs.Shown.{place_meant, shown};
ghost use Rattle.words.specs.Place.{word_at};
ghost use Rattle.walk.specs.Shown.{meant};
ghost use Rattle.elephant.specs.Done.{Fit, Filed};
ghost use Rattle.elephant.specs.Removed.{left_told, spent, removal_at, removal_plan, ended_answer, Came, CameAll};

use crate::delete::delete_at;
use crate::destroy::destroy_at;
use crate::place::Chain;
use answers::number::Number;
use answers::{Answer, Place, Refusal};
use walk::end::Ends;
use words::line::next_word;

// What is done to each name: DEL takes an entry out, DST every path to its file. An enum and no closure: its plan, its place and its request are
// told apart by it too.
#[derive(Clone, Copy)]
pub(crate) enum Removal {
    Delete,
    Destroy,
}

// What ends the names at one of them: a number at its place; and how many stores are left.
#[derive(Clone, Copy)]
pub(crate) struct Ended {
    pub refusal: Refusal,
    pub left: usize,
}

impl Ended {
    // The answer, where so many names are done.
    fn answer(self, names: u32, stop: u32) -> Answer
        requires { self.left ≤ stop }
        ensures { result ≡ shown (ended_answer self names stop) }
    {
        let Refusal { number, place } = self.refusal;
        Answer::plain(u32::from(number), place, names, stop - self.left as u32)
    }
}

// "If more were needed, the answer is 22": how many of the stores left are left after so many.
pub(crate) fn spent(left: usize, needed: usize) -> Result<usize, Ended>
    ensures { left_told result ≡ spent left needed }
{
    if left < needed {
        return Err(Ended {
            refusal: Refusal::whole(Number::Stopped, 0),
            left: 0,
        });
    }
    Ok(left - needed)
}

// One name at its end.
fn remove_at(
    table: &mut [u8],
    removal: Removal,
    ends: Ends,
    place: Place,
    left: usize,
) -> Result<usize, Ended>
    requires { Filed table.old (meant ends.file) }
    ensures { Came table.old left
        (removal_at removal table.old (place_meant place) (meant ends.directory) (meant ends.file)) result table.new }
{
    match removal {
        Removal::Delete => delete_at(table, ends, place, left),
        Removal::Destroy => destroy_at(table, ends.file, place, left),
    }
}

// One name, the argument of this number, with so many stores left.
fn remove_one(
    table: &mut [u8],
    line: &[u8],
    removal: Removal,
    name: usize,
    user: u32,
    argument: u32,
    left: usize,
) -> Result<usize, Ended>
    requires { Fit table.old × (length line.now ≤ 256) }
    ensures { Came table.old left
        (removal_plan removal table.old user argument (word_at line.now name)) result table.new }
{
    let chain = Chain::own(name);
    match chain.to_end(table, line, argument, user) {
        Ok(ends) => remove_at(table, removal, ends, chain.end(line, argument), left),
        Err(refusal) => Err(Ended { refusal, left }),
    }
}

// "DEL does walk and end checks name by name and stops at the first refusal", and so does DST: the words from the first on, so many.
pub(crate) fn remove(
    table: &mut [u8],
    line: &[u8],
    removal: Removal,
    first: usize,
    count: u32,
    user: u32,
    stop: u32,
) -> Answer
    requires { Fit table.old × (first ≡ (word line.now 1).start) × (count ≡ length (drop 1 (words line.now)))
        × (length line.now ≤ 256) }
    ensures { CameAll removal table.old user stop (drop 1 (words line.now)) result table.new }
{
    let mut name = first;
    let mut left = stop as usize;
    for names in 0..count {
        match remove_one(table, line, removal, name, user, names + 1, left) {
            Ok(rest) => left = rest,
            Err(ended) => return ended.answer(names, stop),
        }
        name = next_word(line, name);
    }
    Answer::placeless(0, count, stop - left as u32)
}
