// Is the first word of a line WRS or WRS*, which take a text? Told byte by byte, so that a line of any length needs no room.
ghost use Rattle.std.specs.Prelude.{◌≡◌};
ghost use Rattle.filebox.specs.FirstWord.{after, takes};

#[derive(Clone, Copy)]
pub(crate) enum Stage {
    // blanks alone
    Blanks,
    // the word's first letters
    W,
    Wr,
    Wrs,
    // WRS*
    Star,
    // either word and blanks: a colon would join a name to it
    Gap,
    // it is, or it is not, whatever follows
    Is,
    IsNot,
}

impl Stage {
    pub(crate) fn after(self, b: u8) -> Stage
        ensures { result ≡ after self b }
    {
        match self {
            Stage::Blanks => match b {
                b' ' => Stage::Blanks,
                b'W' => Stage::W,
                _ => Stage::IsNot,
            },
            Stage::W => match b {
                b'R' => Stage::Wr,
                _ => Stage::IsNot,
            },
            Stage::Wr => match b {
                b'S' => Stage::Wrs,
                _ => Stage::IsNot,
            },
            Stage::Wrs => match b {
                b' ' => Stage::Gap,
                b'*' => Stage::Star,
                _ => Stage::IsNot,
            },
            Stage::Star => match b {
                b' ' => Stage::Gap,
                _ => Stage::IsNot,
            },
            Stage::Gap => match b {
                b' ' => Stage::Gap,
                b':' => Stage::IsNot,
                _ => Stage::Is,
            },
            Stage::Is => Stage::Is,
            Stage::IsNot => Stage::IsNot,
        }
    }

    // The word, where the line ends here.
    pub(crate) fn takes_text(self) -> bool
        ensures { result ≡ takes self }
    {
        matches!(self, Stage::Wrs | Stage::Star | Stage::Gap | Stage::Is)
    }
}
