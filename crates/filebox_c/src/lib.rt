// The file box for C: include/filebox.h says what a caller owes and gets.
#![tactic(auto)]

ghost use Rattle.std.specs.Prelude.{[], ◌≡◌};
ghost use Rattle.paper.specs.Layout.{old, six};
ghost use Rattle.paper.specs.Convert.{converting};
ghost use Rattle.paper.specs.Index.{looked_up, keeping, mend_keeping};
ghost use Rattle.paper.specs.Sweep.{sweeping};
ghost use Rattle.index.specs.Shown.{found_shown};
ghost use Rattle.answers.specs.Promised.{Keeps};
ghost use Rattle.job.specs.Lamp.{lit_kept};
ghost use Rattle.lamp.specs.Shown.{Lighted};
ghost use Rattle.disk.specs.Phase.{phase};

use answers::Answer;
use index::Found;
use lamp::Light;
use records::bytes::Room;

// One request on a lent table and its index.
#[unsafe(no_mangle)]
pub extern "C" fn filebox_request(
    table: &mut [u8],
    index: &mut [u16],
    line: &[u8],
    text: &[u8],
    reply: &mut [u8],
    user: u32,
    stop: u32,
) -> Answer
    ensures { Keeps (keeping table.old index.old line.now text.now reply.old user stop)
        result table.new index.new reply.new }
{
    indexed::request(table, index, line, text, reply, user, stop)
}

// Mending, after a power cut.
#[unsafe(no_mangle)]
pub extern "C" fn filebox_mend(table: &mut [u8], index: &mut [u16], stop: u32) -> Answer
    ensures { Keeps (mend_keeping table.old index.old stop) result table.new index.new [] }
{
    indexed::mend(table, index, stop)
}

// The sweep: what no chain of entries from any user's base files reaches is cleared, and then the counts are corrected.
#[unsafe(no_mangle)]
pub extern "C" fn filebox_sweep(table: &mut [u8], index: &mut [u16], stop: u32) -> Answer
    ensures { Keeps (sweeping table.old index.old stop) result table.new index.new [] }
{
    sweep::sweep(table, index, stop)
}

// A name looked up through the index: in the base list of a user, heading 65,535, or in the directory of a heading.
#[unsafe(no_mangle)]
pub extern "C" fn filebox_look_up(
    table: &[u8],
    index: &[u16],
    heading: u32,
    user: u32,
    name: &[u8],
) -> Found
    ensures { result ≡ found_shown (looked_up table.now index.now (record { heading = heading; user = user }) name.now) }
{
    index::look_up(table, index, heading, user, name)
}

// The lamp: a job of sheets filed, read back and compared.
#[unsafe(no_mangle)]
pub extern "C" fn filebox_lamp(
    table: &mut [u8],
    index: &mut [u16],
    sheets: &[u8],
    texts: &[u8],
    back: &mut [u8],
    chain: &[u8],
    user: u32,
    stop: u32,
) -> Light
    ensures { Lighted (lit_kept table.old index.old sheets.now texts.now
        back.old chain.now user stop) result table.new index.new back.new }
{
    lamp::run_job(table, index, sheets, texts, back, chain, user, stop)
}

// A table with a byte for each character of its names, converted to six-bit names.
#[unsafe(no_mangle)]
pub extern "C" fn filebox_to_six(table: &mut [u8]) -> u32
    ensures { (result ≡ (converting old six table.old).number) × (table.new ≡ (converting old six table.old).table) }
{
    u32::from(convert::to_six(table))
}

// .. and back.
#[unsafe(no_mangle)]
pub extern "C" fn filebox_from_six(table: &mut [u8]) -> u32
    ensures { (result ≡ (converting six old table.old).number) × (table.new ≡ (converting six old table.old).table) }
{
    u32::from(convert::from_six(table))
}

// The phase in which a record is written to a disk, by the tables before and after a request.
#[unsafe(no_mangle)]
pub extern "C" fn filebox_disk_phase(before: &[u8], after: &[u8], place: usize) -> u8
    ensures { result ≡ phase before.now after.now place }
{
    phases::phase(before, after, Room(place)).number()
}
