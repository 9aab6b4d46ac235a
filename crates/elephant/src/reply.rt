// RDS, LST and LST*: what they write to the front of the reply.
ghost use Rattle.std.specs.Prelude.{true, [], ◌≡◌, ◌+◌, ◌-◌, ◌≤◌, min, length, take, drop};
ghost use Rattle.std.proofs.lemmas.List.Edits.{sets};
ghost use Rattle.paper.specs.Block.{file_text};
ghost use Rattle.paper.specs.Effect.{showing, writing, part, lst_base_plan, lst_base_tree_plan, list_of};
ghost use Rattle.paper.specs.Listing.{listed, lines, tree};
ghost use Rattle.paper.specs.Record.{simple, text_length};
ghost use Rattle.paper.specs.Layout.{boxed};
ghost use Rattle.paper.specs.Table.{rec};
ghost use Rattle.records.specs.Part.{meant_part};
ghost use Rattle.listing.specs.Shown.{is_listed};
ghost use Rattle.words.specs.Shown.{begin_meant};
ghost use Rattle.walk.specs.Shown.{meant};
ghost use Rattle.answers.specs.Shown.{place_meant, answer_of};
ghost use Rattle.elephant.specs.Done.{Fit, Wrote};
ghost use Rattle.elephant.specs.Reading.{is_right, written, text_late, late, reading_at, reading};
ghost use Rattle.elephant.specs.Walks.{word_of};

use crate::place::Chain;
use answers::number::Number;
use answers::{Answer, Place, Refusal};
use effects::reading::read_text;
use effects::rooms::text_rooms;
use listing::{Listed, listed_length, write_lines};
use records::block::blocks;
use records::bytes::{Bytes, Room};
use records::entry::heading_named;
use records::heading::{is_directory, is_marked, is_simple, text_length};
use records::text::Text;
use tree::list_tree;
use walk::state::State;

// What is read of a file: of the text of a simple one, the part from a first byte on, so many bytes; or the lines
// of a directory, or those and what stands under them, to a depth.
#[derive(Clone, Copy)]
pub(crate) enum Sheet {
    Text(Option<u32>, Option<u32>),
    Lines,
    Deep(u8),
}

// So many bytes of a simple file's text, from one on, copied to the front of the reply; from the text records that hold them alone.
fn copy_part(table: &[u8], heading: Room, first: Bytes, count: Bytes, reply: &mut [u8])
    requires { Fit table.now × (simple (rec table.now heading.0) ≡ true) × (first.0 + count.0 ≤ text_length (rec table.now heading.0)) }
    ensures { reply.new ≡ sets reply.old 0
        (take count.0 (drop first.0 (file_text table.now heading.0))) }
{
    let mut rooms = [0u16; Text::MOST];
    let a = first.0;
    let end = a + count.0;
    let from = Room(a / Text::MOST_HELD);
    let last = blocks(Bytes(end));
    text_rooms(table, heading, last, &mut rooms);
    let skip = Bytes(a % Text::MOST_HELD);
    read_text(table, &rooms, from, last, skip, count, reply);
}

// The text of a simple file copied to the front of the reply.
pub(crate) fn copy_text(table: &[u8], heading: Room, reply: &mut [u8])
    requires { Fit table.now × (simple (rec table.now heading.0) ≡ true) }
    ensures { reply.new ≡ sets reply.old 0 (file_text table.now heading.0) }
{
    copy_part(table, heading, Bytes(0), text_length(table, heading), reply);
}

// The part of a simple file's text, where it fits: 23 where the file, whose name is at this place, is marked, and 28 where the
// part starts beyond the end.
fn write_text(
    table: &[u8],
    heading: Room,
    place: Place,
    first: Option<u32>,
    count: Option<u32>,
    reply: &mut [u8],
) -> Result<Answer, Refusal>
    requires { Fit table.now × (simple (rec table.now heading.0) ≡ true) }
    ensures { Wrote table.now reply.old
        (showing [] (part (file_text table.now heading.0) (meant_part first) (meant_part count)) reply.old
        (text_late (place_meant place) (meant_part first) table.now heading.0)) (answer_of result) reply.new }
{
    let n = text_length(table, heading).0;
    let a = first.unwrap_or(0) as usize;
    let m = count
        .map_or(n, |most| most as usize)
        .min(n.saturating_sub(a));
    if reply.len() < m {
        return Err(Refusal::whole(Number::ReplyTooShort, 0));
    }
    if is_marked(table, heading) {
        return Err(Refusal {
            number: Number::Marked,
            place,
        });
    }
    if n < a {
        return Err(Refusal::whole(Number::BeyondEnd, 2));
    }
    copy_part(table, heading, Bytes(a), Bytes(m), reply);
    Ok(Answer::granted(false, m, 0))
}

// The lines of what is listed, where they fit.
fn list(table: &[u8], which: Listed, reply: &mut [u8]) -> Result<Answer, Refusal>
    requires { Fit table.now }
    ensures { Wrote table.now reply.old
        (writing [] (lines boxed table.now (listed boxed table.now (is_listed which))) reply.old) (answer_of result) reply.new }
{
    let n = listed_length(table, which).0;
    if reply.len() < n {
        return Err(Refusal::whole(Number::ReplyTooShort, 0));
    }
    write_lines(table, which, reply);
    Ok(Answer::granted(false, n, 0))
}

// The lines of what is listed and of what stands under it, to a depth, where they fit.
fn list_deep(table: &[u8], which: Listed, depth: u8, reply: &mut [u8]) -> Result<Answer, Refusal>
    requires { Fit table.now }
    ensures { Wrote table.now reply.old
        (writing [] (tree boxed table.now depth 0 (is_listed which)) reply.old) (answer_of result) reply.new }
{
    let Some(n) = list_tree(table, which, depth, reply) else {
        return Err(Refusal::whole(Number::ReplyTooShort, 0));
    };
    Ok(Answer::granted(false, n, 0))
}

// Whether a heading is of the file that is read.
fn is_right(table: &[u8], sheet: Sheet, heading: Room) -> bool
    ensures { result ≡ is_right sheet (rec table.now heading.0) }
{
    match sheet {
        Sheet::Text(_, _) => is_simple(table, heading),
        Sheet::Lines | Sheet::Deep(_) => is_directory(table, heading),
    }
}

// What is read of a heading, whose name is at this place, where it fits.
fn write(
    table: &[u8],
    sheet: Sheet,
    heading: Room,
    place: Place,
    reply: &mut [u8],
) -> Result<Answer, Refusal>
    requires { Fit table.now × (is_right sheet (rec table.now heading.0) ≡ true) }
    ensures { Wrote table.now reply.old
        (showing [] (written sheet table.now heading.0) reply.old (late sheet (place_meant place) table.now heading.0))
        (answer_of result) reply.new }
{
    match sheet {
        Sheet::Text(first, count) => write_text(table, heading, place, first, count, reply),
        Sheet::Lines => list(table, Listed::Directory(heading), reply),
        Sheet::Deep(depth) => list_deep(table, Listed::Directory(heading), depth, reply),
    }
}

// 13 and 15 of the file f, whose name is at this place, and what is read of it.
fn read_at(
    table: &[u8],
    sheet: Sheet,
    place: Place,
    f: State,
    reply: &mut [u8],
) -> Result<Answer, Refusal>
    requires { Fit table.now }
    ensures { Wrote table.now reply.old
        (reading_at sheet (place_meant place) table.now reply.old (meant f)) (answer_of result) reply.new }
{
    if f.code.inhibits_read() {
        return Err(Refusal {
            number: Number::ReadInhibited,
            place,
        });
    }
    let heading = heading_named(table, f.entry);
    if !is_right(table, sheet, heading) {
        return Err(Refusal {
            number: Number::WrongType,
            place,
        });
    }
    write(table, sheet, heading, place, reply)
}

// "RDS writes the text to the front of the reply buffer." "LST writes one line an entry", and LST* those under it
pub(crate) fn read(
    table: &[u8],
    line: &[u8],
    reply: &mut [u8],
    sheet: Sheet,
    name: Chain,
    user: u32,
) -> Result<Answer, Refusal>
    requires { Fit table.now × (length line.now ≤ 256) }
    ensures { Wrote table.now reply.old
        (reading sheet table.now (list_of user (begin_meant name.begin)) reply.old (word_of line.now name))
        (answer_of result) reply.new }
{
    let ends = name.to_end(table, line, 1, user)?;
    read_at(table, sheet, name.end(line, 1), ends.file, reply)
}

// "LST of a lone point"
#[tactic(auto, unfolding(paper::specs::Effect::lst_base_plan))]
pub(crate) fn lst_base(table: &[u8], reply: &mut [u8], user: u32) -> Result<Answer, Refusal>
    requires { Fit table.now }
    ensures { Wrote table.now reply.old
        (lst_base_plan boxed table.now user reply.old) (answer_of result) reply.new }
{
    list(table, Listed::Base(user), reply)
}

// "LST* of a lone point", to a depth
#[tactic(auto, unfolding(paper::specs::Effect::lst_base_tree_plan))]
pub(crate) fn lst_base_tree(
    table: &[u8],
    reply: &mut [u8],
    user: u32,
    depth: u8,
) -> Result<Answer, Refusal>
    requires { Fit table.now }
    ensures { Wrote table.now reply.old
        (lst_base_tree_plan boxed table.now user reply.old depth) (answer_of result) reply.new }
{
    list_deep(table, Listed::Base(user), depth, reply)
}
