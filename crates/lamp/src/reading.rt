// The sheets read back in order, each compared with the text sent.
ghost use Rattle.std.specs.Prelude.{[], ◌≡◌, ◌≤◌, length};
ghost use Rattle.answers.specs.Promised.{Keeps};
ghost use Rattle.job.specs.Sheet.{count, start, job};
ghost use Rattle.job.specs.Told.{beside};
ghost use Rattle.job.specs.Reading.{brings, kept_read, kept_reading};
ghost use Rattle.lamp.specs.Runs.{sheet_of, WasRead};

use crate::failure::Failure;
use crate::line::{HELD, compose};
use crate::sheet::{Job, count_sheets, length_of, link_of};
use answers::Answer;
use records::bytes::{Bytes, part};
use records::name::are_same;

// `RDS chain:link`, into the read-back buffer.
fn read_one(
    table: &mut [u8],
    index: &mut [u16],
    back: &mut [u8],
    chain: &[u8],
    link: &[u8],
    user: u32,
) -> Answer
    ensures { Keeps (kept_read (beside table.old index.old) chain.now
        back.old user (sheet_of link.now [])) result table.new index.new back.new }
{
    let mut held = [0u8; HELD];
    let line = compose(&mut held, b"RDS ", chain, link);
    indexed::request(table, index, line, &[], back, user, 0)
}

// Whether an answer brought the text sent to the front of the buffer.
fn is_brought(answer: Answer, back: &[u8], text: &[u8]) -> bool
    ensures { result ≡ brings answer.number answer.bytes back.now text.now }
{
    answer.number == 0 && are_same(part(back, 0, Bytes(answer.bytes)), text)
}

// Every sheet read back, up to the first that fails; so many stores were made before.
pub fn read_all(
    table: &mut [u8],
    index: &mut [u16],
    sent: Job,
    back: &mut [u8],
    stores: u32,
) -> Result<(), Failure>
    requires { start sent.sheets.now (count sent.sheets.now) ≤ length sent.texts.now }
    ensures { WasRead (kept_reading (beside table.old index.old) sent.entry.chain.now back.old sent.entry.user 1
        (job sent.entry.sheets.now sent.entry.texts.now)) stores result table.new index.new back.new }
{
    let mut at = 0;
    for i in 0..count_sheets(sent.sheets) {
        let length = length_of(sent.sheets, i);
        let answer = read_one(
            table,
            index,
            back,
            sent.chain,
            link_of(sent.sheets, i),
            sent.user,
        );
        if !is_brought(answer, back, part(sent.texts, at, Bytes(length))) {
            return Err(Failure::Unread {
                sheet: i + 1,
                number: answer.number,
                stores,
            });
        }
        at += length;
    }
    Ok(())
}
