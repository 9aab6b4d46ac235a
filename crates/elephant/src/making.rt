// CRD and WRS: a new file and its entry. DUP: another entry of a file.
ghost use Rattle.std.specs.Prelude.{[], ◌≡◌};
ghost use Rattle.paper.specs.Effect.{making, filing, crd_plan, wrs_plan, dup_plan, list_of};
ghost use Rattle.paper.specs.Record.{byte};
ghost use Rattle.paper.specs.Layout.{boxed};
ghost use Rattle.paper.specs.Request.{own};
ghost use Rattle.paper.specs.Table.{rec};
ghost use Rattle.paper.specs.Walk.{file};
ghost use Rattle.records.specs.Part.{meant_part};
ghost use Rattle.records.specs.Shown.{holder_shown};
ghost use Rattle.words.specs.Place.{word_at};
ghost use Rattle.words.specs.Shown.{begin_meant};
ghost use Rattle.walk.specs.Shown.{meant};
ghost use Rattle.answers.specs.Shown.{answer_of};
ghost use Rattle.elephant.specs.Done.{Did};
ghost use Rattle.placing.specs.Placing.{Held};
ghost use Rattle.elephant.specs.Filing.{Named, Linked, Fresh, filing_of, linking_in, late_checks, ending};
ghost use Rattle.elephant.specs.Walks.{word_of};

use crate::filing::{Making, make};
use crate::place::Chain;
use answers::number::Number;
use answers::{Answer, Refusal};
use declarations::part::Part;
use effects::rooms::{free_rooms, room_at};
use records::block::blocks;
use records::bytes::{Bytes, Room, part};
use records::code::Code;
use records::entry::{Entry, entry_code, heading_named};
use records::heading::Heading;
use walk::chain::last_name;
use walk::end::Ends;
use walk::state::State;
use words::begin::Begin;

// What is declared of a new file.
#[derive(Clone, Copy)]
pub(crate) struct Declared {
    pub level: Part,
    pub digit: Part,
}

// A file to be made under the last name of an argument that is a chain: the argument's number and where it starts in the line, the
// directory, the code and the heading.
#[derive(Clone, Copy)]
pub(crate) struct Filing {
    pub argument: u32,
    pub at: usize,
    pub directory: State,
    pub code: Code,
    pub heading: [u8; Room::SIZE],
}

// A new file: 17 to 19 and what refuses after them, the stores and the answer.
pub(crate) fn file(
    table: &mut [u8],
    line: &[u8],
    filing: Filing,
    text: &[u8],
    late: Result<(), Refusal>,
    stop: u32,
) -> Result<Answer, Refusal>
    requires { Named table.old line.now filing.at text.now × Fresh table.old (holder_shown filing.directory.holder) filing.heading }
    ensures { Did table.old stop
        (ending table.old own (filing_of table.old line.now filing text.now) (late_checks late)) (answer_of result) table.new }
{
    let mut rooms = [0u16; Entry::MOST_NEW];
    let most = blocks(Bytes(text.len())).0 + 2;
    free_rooms(table, Room(most), &mut rooms);
    let making = Making {
        directory: filing.directory,
        code: filing.code,
        named: room_at(&rooms, 0),
        place: Chain::own(filing.at).end(line, filing.argument),
        to: Begin::Own,
    };
    let name = last_name(line, filing.at);
    make(
        table,
        &rooms,
        making,
        name,
        Some(filing.heading),
        text,
        late,
        stop,
    )
}

// The same where 14 is the one check before them.
fn file_in(
    table: &mut [u8],
    line: &[u8],
    filing: Filing,
    text: &[u8],
    stop: u32,
) -> Result<Answer, Refusal>
    requires { Named table.old line.now filing.at text.now × Fresh table.old (holder_shown filing.directory.holder) filing.heading }
    ensures { Did table.old stop
        (making boxed table.old (filing_of table.old line.now filing text.now) [] [] []) (answer_of result) table.new }
{
    if filing.directory.code.inhibits_write() {
        let place = Chain::own(filing.at).end(line, filing.argument);
        return Err(Refusal {
            number: Number::WriteInhibited,
            place,
        });
    }
    file(table, line, filing, text, Ok(()), stop)
}

// "CRD: heading, entry."
pub(crate) fn crd(
    table: &mut [u8],
    line: &[u8],
    name: usize,
    declared: Declared,
    user: u32,
    stop: u32,
) -> Result<Answer, Refusal>
    requires { Named table.old line.now name [] }
    ensures { Did table.old stop
        (crd_plan boxed table.old user (word_at line.now name) (meant_part declared.level) (meant_part declared.digit))
        (answer_of result) table.new }
{
    let code = Code(declared.digit.unwrap_or(0));
    let heading = Heading {
        ty: Heading::DIRECTORY,
        level: declared.level.unwrap_or(0),
        code,
        lifetime: Heading::MEDIUM,
        length: Bytes(0),
    }
    .laid();
    let filing = Filing {
        argument: 1,
        at: name,
        directory: Chain::own(name).to_directory(table, line, 1, user)?,
        code,
        heading,
    };
    file_in(table, line, filing, part(line, 0, Bytes(0)), stop)
}

// "WRS, CPY: heading, text by position, entry."
pub(crate) fn wrs(
    table: &mut [u8],
    line: &[u8],
    text: &[u8],
    lifetime: u8,
    declared: Declared,
    name: usize,
    user: u32,
    stop: u32,
) -> Result<Answer, Refusal>
    requires { Named table.old line.now name text.now }
    ensures { Did table.old stop
        (wrs_plan boxed table.old user text.now lifetime (meant_part declared.level) (meant_part declared.digit)
        (word_at line.now name)) (answer_of result) table.new }
{
    let code = Code(declared.digit.unwrap_or(0));
    let heading = Heading {
        ty: Heading::SIMPLE,
        level: declared.level.unwrap_or(0),
        code,
        lifetime,
        length: Bytes(text.len()),
    }
    .laid();
    let filing = Filing {
        argument: 2,
        at: name,
        directory: Chain::own(name).to_directory(table, line, 2, user)?,
        code,
        heading,
    };
    file_in(table, line, filing, text, stop)
}

// 14, and the entry of the file f in d, its code the old entry's joined with the declared one.
fn dup_in(
    table: &mut [u8],
    line: &[u8],
    new: Chain,
    d: State,
    f: State,
    digit: Part,
    stop: u32,
) -> Result<Answer, Refusal>
    requires { Linked table.old line.now new × Held table.old (holder_shown d.holder)
        × (byte (rec table.old (file table.old (meant f))) 0 ≡ 1) }
    ensures { Did table.old stop
        (linking_in table.old (begin_meant new.begin) (word_of line.now new) (meant_part digit) (meant f) (meant d))
        (answer_of result) table.new }
{
    let place = new.end(line, 2);
    if d.code.inhibits_write() {
        return Err(Refusal {
            number: Number::WriteInhibited,
            place,
        });
    }
    let code = Code(digit.unwrap_or(0));
    let making = Making {
        directory: d,
        code: entry_code(table, f.entry).joined(code),
        named: heading_named(table, f.entry),
        place,
        to: new.begin,
    };
    let mut rooms = [0u16; Entry::MOST_NEW];
    free_rooms(table, Room(2), &mut rooms);
    let name = last_name(line, new.at);
    let text = part(line, 0, Bytes(0));
    make(table, &rooms, making, name, None, text, Ok(()), stop)
}

// "DUP: entry, its code the old entry's joined with the declared one."
pub(crate) fn dup(
    table: &mut [u8],
    line: &[u8],
    old: Chain,
    new: Chain,
    digit: Part,
    user: u32,
    stop: u32,
) -> Result<Answer, Refusal>
    requires { Linked table.old line.now new }
    ensures { Did table.old stop
        (dup_plan boxed table.old (list_of user (begin_meant old.begin)) (list_of user (begin_meant new.begin)) (begin_meant new.begin)
        (word_of line.now old) (word_of line.now new) (meant_part digit)) (answer_of result) table.new }
{
    let ends = old.to_end(table, line, 1, user)?;
    let directory = new.to_directory(table, line, 2, user)?;
    dup_in(table, line, new, directory, ends.file, digit, stop)
}
