// The sheets filed in order, one stop number for all of them.
ghost use Rattle.std.specs.Prelude.{◌≤◌, length};
ghost use Rattle.job.specs.Sheet.{count, start, job};
ghost use Rattle.job.specs.Told.{beside};
ghost use Rattle.job.specs.Filing.{kept_filed, kept_filing};
ghost use Rattle.lamp.specs.Runs.{sheet_of, Asked, Filed};

use crate::failure::Failure;
use crate::line::{HELD, compose};
use crate::sheet::{Job, count_sheets, length_of, link_of};
use answers::Answer;
use records::bytes::{Bytes, part};

// `WRS M chain:link`, with a text and so many stores left.
fn file_one(
    table: &mut [u8],
    index: &mut [u16],
    chain: &[u8],
    link: &[u8],
    text: &[u8],
    user: u32,
    left: u32,
) -> Answer
    ensures { Asked (kept_filed (beside table.old index.old) chain.now user left
        (sheet_of link.now text.now)) left result table.new index.new }
{
    let mut held = [0u8; HELD];
    let line = compose(&mut held, b"WRS M ", chain, link);
    indexed::request(table, index, line, text, &mut [], user, left)
}

// Every sheet filed, up to the first that is not answered 0: all the stores made.
pub fn file_all(table: &mut [u8], index: &mut [u16], sent: Job, stop: u32) -> Result<u32, Failure>
    requires { start sent.sheets.now (count sent.sheets.now) ≤ length sent.texts.now }
    ensures { Filed (kept_filing (beside table.old index.old) sent.entry.chain.now sent.entry.user stop 1 0
        (job sent.entry.sheets.now sent.entry.texts.now)) result table.new index.new }
{
    let mut left = stop;
    let mut at = 0;
    for i in 0..count_sheets(sent.sheets) {
        let length = length_of(sent.sheets, i);
        let link = link_of(sent.sheets, i);
        let text = part(sent.texts, at, Bytes(length));
        let answer = file_one(table, index, sent.chain, link, text, sent.user, left);
        left -= answer.stores;
        if answer.number != 0 {
            return Err(Failure::Unfiled {
                sheet: i + 1,
                number: answer.number,
                stores: stop - left,
            });
        }
        at += length;
    }
    Ok(stop - left)
}
