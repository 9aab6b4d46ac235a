// DPR and CHN: one record stored in the place of the old one.
ghost use Rattle.std.specs.Prelude.{◌≤◌, length};
ghost use Rattle.paper.specs.Layout.{boxed};
ghost use Rattle.paper.specs.Effect.{chn_at, chn_plan, dpr_at, dpr_plan};
ghost use Rattle.paper.specs.Walk.{last_name};
ghost use Rattle.words.specs.Place.{names_from, word_at};
ghost use Rattle.walk.specs.Shown.{meant};
ghost use Rattle.answers.specs.Shown.{place_meant, answer_of};
ghost use Rattle.elephant.specs.Done.{Fit, Filed, Did};

use crate::place::Chain;
use answers::number::Number;
use answers::{Answer, Place, Refusal};
use effects::stage::put;
use records::code::Code;
use records::entry::{heading_named, renamed};
use records::heading::{heading_code, recoded};
use scans::find;
use walk::chain::last_name;
use walk::end::Ends;
use walk::state::State;

// The heading of the file f with its new code: 14 and 21, and the store.
fn dpr_at(table: &mut [u8], place: Place, f: State, code: u8, stop: u32) -> Result<Answer, Refusal>
    requires { Filed table.old (meant f) }
    ensures { Did table.old stop (dpr_at table.old (place_meant place) code (meant f)) (answer_of result) table.new }
{
    if f.code.inhibits_write() {
        return Err(Refusal {
            number: Number::WriteInhibited,
            place,
        });
    }
    let heading = heading_named(table, f.entry);
    if Code(code).lacks(heading_code(table, heading)) {
        return Err(Refusal::whole(Number::LacksBit, 2));
    }
    let bytes = recoded(table, heading, Code(code));
    put(table, heading, bytes, stop as usize);
    Ok(Answer::stored(1, stop, false))
}

// "DPR: the heading with its new code."
pub(crate) fn dpr(
    table: &mut [u8],
    line: &[u8],
    name: usize,
    code: u8,
    user: u32,
    stop: u32,
) -> Result<Answer, Refusal>
    requires { Fit table.old × (length line.now ≤ 256) }
    ensures { Did table.old stop (dpr_plan boxed table.old user (word_at line.now name) code) (answer_of result) table.new }
{
    let chain = Chain::own(name);
    let ends = chain.to_end(table, line, 1, user)?;
    dpr_at(table, chain.end(line, 1), ends.file, code, stop)
}

// The entry at the end of the old name with its new name: 14 and 16, and the store.
fn chn_at(
    table: &mut [u8],
    place: Place,
    ends: Ends,
    name: &[u8],
    stop: u32,
) -> Result<Answer, Refusal>
    requires { Filed table.old (meant ends.file) × (length name.now ≤ 10) }
    ensures { Did table.old stop
        (chn_at boxed table.old (place_meant place) name.now (meant ends.directory) (meant ends.file)) (answer_of result) table.new }
{
    let Ends { directory, file } = ends;
    if directory.code.inhibits_write() {
        return Err(Refusal {
            number: Number::WriteInhibited,
            place,
        });
    }
    if find(table, directory.holder, name).is_some() {
        return Err(Refusal::whole(Number::Borne, 2));
    }
    let bytes = renamed(table, file.entry, name);
    put(table, file.entry, bytes, stop as usize);
    Ok(Answer::stored(1, stop, false))
}

// "CHN: the entry with its new name."
pub(crate) fn chn(
    table: &mut [u8],
    line: &[u8],
    old: usize,
    link: usize,
    user: u32,
    stop: u32,
) -> Result<Answer, Refusal>
    requires { Fit table.old × (length (last_name (names_from line.now link)) ≤ 10) × (length line.now ≤ 256) }
    ensures { Did table.old stop
        (chn_plan boxed table.old user (word_at line.now old) (word_at line.now link)) (answer_of result) table.new }
{
    let chain = Chain::own(old);
    let ends = chain.to_end(table, line, 1, user)?;
    chn_at(table, chain.end(line, 1), ends, last_name(line, link), stop)
}
