// The phases, and the numbers that they have for C.
ghost use Rattle.std.specs.Prelude.{◌≡◌};
ghost use Rattle.phases.specs.Shown.{phase_meant};

// "0 same, 1 first, 2 entry, 3 last"
#[derive(Clone, Copy, PartialEq, Eq)]
pub enum Phase {
    Same,
    First,
    Entry,
    Last,
}

impl Phase {
    // Its number, 0 to 3.
    pub fn number(self) -> u8
        ensures { result ≡ phase_meant self }
    {
        self as u8
    }
}
