// CPY: a new file with the text of an old one.
ghost use Rattle.std.specs.Prelude.{true, [], ◌∷◌, ◌≡◌};
ghost use Rattle.paper.specs.Check.{verdict};
ghost use Rattle.paper.specs.Effect.{making, read_inhibited, not_simple, cpy_plan, list_of};
ghost use Rattle.paper.specs.Record.{simple};
ghost use Rattle.paper.specs.Layout.{boxed};
ghost use Rattle.paper.specs.Request.{own};
ghost use Rattle.paper.specs.Table.{rec};
ghost use Rattle.paper.specs.Walk.{file};
ghost use Rattle.records.specs.Part.{meant_part};
ghost use Rattle.records.specs.Shown.{holder_shown};
ghost use Rattle.words.specs.Place.{word_at};
ghost use Rattle.words.specs.Shown.{begin_meant};
ghost use Rattle.walk.specs.Shown.{meant};
ghost use Rattle.answers.specs.Shown.{place_meant, told, verdict_shown, answer_of};
ghost use Rattle.placing.specs.Placing.{Held};
ghost use Rattle.elephant.specs.Done.{Did};
ghost use Rattle.elephant.specs.Filing.{Named, copied, copy_late, late_of, ending};
ghost use Rattle.elephant.specs.Walks.{word_of};

use crate::making::{Declared, Filing, file};
use crate::place::Chain;
use crate::reply::copy_text;
use answers::number::Number;
use answers::{Answer, Place, Refusal};
use declarations::part::Part;
use records::bytes::{Room, part};
use records::code::Code;
use records::entry::heading_named;
use records::heading::{Heading, is_marked, is_simple, level_of, lifetime_of, text_length};
use walk::state::State;

// 23, "marked", and 25, "level too low", of a copy with this level of a file whose name is at this place.
#[tactic(auto, unfolding(paper::specs::Check::verdict))]
fn check_copy(table: &[u8], source: Room, place: Place, level: u8) -> Result<(), Refusal>
    ensures { told result ≡ verdict_shown (verdict (copy_late (place_meant place) (rec table.now source.0) level)) }
{
    if is_marked(table, source) {
        return Err(Refusal {
            number: Number::Marked,
            place,
        });
    }
    if level < level_of(table, source) {
        return Err(Refusal::whole(Number::LevelTooLow, 3));
    }
    Ok(())
}

// A copy to be made: where the new name starts in the line, the directory that it stands in, the place that refusals of the old name
// give, and what is declared.
#[derive(Clone, Copy)]
struct Copying {
    at: usize,
    directory: State,
    place: Place,
    lifetime: Part,
    declared: Declared,
}

// The text of a simple file filed under the new name, after 13, 14 and 15.
fn copy(
    table: &mut [u8],
    line: &[u8],
    copying: Copying,
    source: Room,
    stop: u32,
) -> Result<Answer, Refusal>
    requires { Named table.old line.now copying.at [] × (simple (rec table.old source.0) ≡ true)
        × Held table.old (holder_shown copying.directory.holder) }
    ensures { Did table.old stop
        (ending table.old own (copied table.old line.now copying source.0)
        (late_of (place_meant copying.place) (meant_part copying.declared.level) (rec table.old source.0))) (answer_of result) table.new }
{
    let mut text = [0u8; Heading::MOST_LENGTH];
    copy_text(table, source, &mut text);
    let length = text_length(table, source);
    let declared = copying.declared;
    let code = Code(declared.digit.unwrap_or(0));
    let level = declared.level.unwrap_or(level_of(table, source));
    let heading = Heading {
        ty: Heading::SIMPLE,
        level,
        code,
        lifetime: copying.lifetime.unwrap_or(lifetime_of(table, source)),
        length,
    }
    .laid();
    let filing = Filing {
        argument: 2,
        at: copying.at,
        directory: copying.directory,
        code,
        heading,
    };
    let late = check_copy(table, source, copying.place, level);
    file(table, line, filing, part(&text, 0, length), late, stop)
}

// 13, 14 and 15 of a copy of the file f, and the copy.
fn cpy_in(
    table: &mut [u8],
    line: &[u8],
    copying: Copying,
    f: State,
    stop: u32,
) -> Result<Answer, Refusal>
    requires { Named table.old line.now copying.at [] × Held table.old (holder_shown copying.directory.holder) }
    ensures { Did table.old stop
        (making boxed table.old (copied table.old line.now copying (file table.old (meant f)))
        (read_inhibited (place_meant copying.place) (meant f) ∷ [])
        (not_simple (place_meant copying.place) table.old (meant f) ∷ [])
        (late_of (place_meant copying.place) (meant_part copying.declared.level) (rec table.old (file table.old (meant f)))))
        (answer_of result) table.new }
{
    let place = copying.place;
    if f.code.inhibits_read() {
        return Err(Refusal {
            number: Number::ReadInhibited,
            place,
        });
    }
    if copying.directory.code.inhibits_write() {
        let place = Chain::own(copying.at).end(line, 2);
        return Err(Refusal {
            number: Number::WriteInhibited,
            place,
        });
    }
    let source = heading_named(table, f.entry);
    if !is_simple(table, source) {
        return Err(Refusal {
            number: Number::WrongType,
            place,
        });
    }
    copy(table, line, copying, source, stop)
}

// "CPY may have M or L, else takes the source's. Level: given, else U (CPY: the source's). Code: given, else 0."
pub(crate) fn cpy(
    table: &mut [u8],
    line: &[u8],
    old: Chain,
    new: usize,
    lifetime: Part,
    declared: Declared,
    user: u32,
    stop: u32,
) -> Result<Answer, Refusal>
    requires { Named table.old line.now new [] }
    ensures { Did table.old stop
        (cpy_plan boxed table.old (list_of user (begin_meant old.begin)) user (word_of line.now old) (word_at line.now new)
        (meant_part lifetime) (meant_part declared.level) (meant_part declared.digit)) (answer_of result) table.new }
{
    let ends = old.to_end(table, line, 1, user)?;
    let directory = Chain::own(new).to_directory(table, line, 2, user)?;
    let copying = Copying {
        at: new,
        directory,
        place: old.end(line, 1),
        lifetime,
        declared,
    };
    cpy_in(table, line, copying, ends.file, stop)
}
