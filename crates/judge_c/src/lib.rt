// The judge for C.
#![tactic(auto)]

ghost use Rattle.std.specs.Prelude.{◌≡◌};
ghost use Rattle.judge.specs.Judged.{judged};

// Document 01's number for the table: 1 if it is not sized, 2 if it is not sound, and else 0.
#[unsafe(no_mangle)]
pub extern "C" fn filebox_judge(table: &[u8]) -> u8
    ensures { result ≡ judged table.now }
{
    judge::judge(table)
}
