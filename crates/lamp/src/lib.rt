// The lamp of a fixture, a second library above the file box: a job of sheets is filed whole, every sheet is read back, and then the
// lamp is green. What a caller relies on is here: one equation.
#![tactic(auto)]

mod failure;
mod filing;
mod line;
mod reading;
mod refusal;
mod sheet;

ghost use Rattle.std.specs.Prelude.{◌≡◌};
ghost use Rattle.job.specs.Lamp.{green, red, refusal, lit_kept};
ghost use Rattle.lamp.specs.Shown.{sheet_shown, shown, failure_shown, light_shown, Lighted};

use crate::failure::Failure;
use crate::filing::file_all;
use crate::reading::read_all;
use crate::refusal::admit;
use crate::sheet::Job;

// The answer: light 0 green, 1 red, 2 refused; the sheet that failed, from 1, or 0; phase 1 filing, 2 reading, or 0; the reply number
// of that sheet, or the refusal's; all the stores that the job made.
#[repr(C)]
#[derive(Clone, Copy)]
pub struct Light {
    pub light: u32,
    pub sheet: u32,
    pub phase: u32,
    pub number: u32,
    pub stores: u32,
}

impl Light {
    // The last sheet number that an answer shows; it stands for every later sheet too.
    const LAST_SHEET: usize = 4294967295;

    fn green(stores: u32) -> Self
        ensures { result ≡ shown (green stores) }
    {
        Light {
            light: 0,
            sheet: 0,
            phase: 0,
            number: 0,
            stores,
        }
    }

    fn red(phase: u32, sheet: usize, number: u32, stores: u32) -> Self
        ensures { result ≡ shown (red phase sheet number stores) }
    {
        Light {
            light: 1,
            sheet: sheet_shown(sheet),
            phase,
            number,
            stores,
        }
    }

    fn refused(sheet: usize, number: u32) -> Self
        ensures { result ≡ shown (refusal sheet number) }
    {
        Light {
            light: 2,
            sheet: sheet_shown(sheet),
            phase: 0,
            number,
            stores: 0,
        }
    }
}

impl From<Failure> for Light {
    ghost from_gives = { λ f a. a ≡ failure_shown f };

    fn from(failure: Failure) -> Light {
        match failure {
            Failure::Refused { sheet, number } => Light::refused(sheet, number),
            Failure::Unfiled {
                sheet,
                number,
                stores,
            } => Light::red(1, sheet, number, stores),
            Failure::Unread {
                sheet,
                number,
                stores,
            } => Light::red(2, sheet, number, stores),
        }
    }
}

// A sheet's number in an answer.
fn sheet_shown(sheet: usize) -> u32
    ensures { result ≡ sheet_shown sheet }
{
    sheet.min(Light::LAST_SHEET) as u32
}

// A job that is not refused is filed and, if no sheet failed, read back: all the stores made.
fn run(
    table: &mut [u8],
    index: &mut [u16],
    sent: Job,
    back: &mut [u8],
    stop: u32,
) -> Result<u32, Failure>
    ensures { Lighted (lit_kept table.old index.old sent.entry.sheets.now sent.entry.texts.now
        back.old sent.entry.chain.now sent.entry.user stop) (light_shown result) table.new index.new back.new }
{
    admit(sent.sheets, sent.texts, back)?;
    let stores = file_all(table, index, sent, stop)?;
    read_all(table, index, sent, back, stores)?;
    Ok(stores)
}

// A job: its sheets and their texts filed in the directory that a chain names, and read back, for a user, with one stop number; each
// filing and each reading is a request with the index.
pub fn run_job(
    table: &mut [u8],
    index: &mut [u16],
    sheets: &[u8],
    texts: &[u8],
    back: &mut [u8],
    chain: &[u8],
    user: u32,
    stop: u32,
) -> Light
    ensures { Lighted (lit_kept table.old index.old sheets.now texts.now
        back.old chain.now user stop) result table.new index.new back.new }
{
    let sent = Job {
        sheets,
        texts,
        chain,
        user,
    };
    match run(table, index, sent, back, stop) {
        Ok(stores) => Light::green(stores),
        Err(failure) => Light::from(failure),
    }
}
