// Why the light of a job is not green.

// One of the lamp's own refusals, before any store; or a sheet that was not filed, or not read back, with its reply number and all the
// stores made. The sheet is the first of which this is true, from 1.
#[derive(Clone, Copy, Debug, PartialEq, Eq)]
pub enum Failure {
    Refused {
        sheet: usize,
        number: u32,
    },
    Unfiled {
        sheet: usize,
        number: u32,
        stores: u32,
    },
    Unread {
        sheet: usize,
        number: u32,
        stores: u32,
    },
}
