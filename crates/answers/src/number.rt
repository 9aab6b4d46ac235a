// "Reply numbers": why a request is refused, or where it stopped. Number 0, done, is no refusal.
ghost use Rattle.std.specs.Prelude.{◌≡◌};
ghost use Rattle.answers.specs.Number.{number_of, Decodes};

#[derive(Clone, Copy, PartialEq, Eq)]
pub enum Number {
    // "table length no multiple of 32, or above 65,536"
    Unsized = 1,
    // "table not sound"
    Unsound = 2,
    // "user above 999,999"
    UserTooHigh = 3,
    // "line too long, or a byte outside 32..95"
    BadLine = 4,
    // "no such function, empty line"
    NoFunction = 5,
    // "wrong count of arguments"
    WrongCount = 6,
    // "malformed name or chain"
    Malformed = 7,
    // "illegal base name (also CHN's link for a base file)"
    IllegalBase = 8,
    // "declaration malformed or unfit"
    UnfitDeclaration = 9,
    // "WRS text above 24,000 bytes"
    TextTooLong = 10,
    // "name not there"
    NotThere = 11,
    // "name before the last is no directory"
    NoDirectory = 12,
    ReadInhibited = 13,
    WriteInhibited = 14,
    // "RDS, CPY: not simple; LST: no directory"
    WrongType = 15,
    // "new name borne by an entry there"
    Borne = 16,
    // "directory or base list full, nothing displaced"
    Full = 17,
    // "file losing its last entry is a directory with entries"
    Peopled = 18,
    // "fewer free records than the request needs"
    NoRoom = 19,
    // "reply buffer too short"
    ReplyTooShort = 20,
    // "DPR: new code lacks a bit of the heading's"
    LacksBit = 21,
    // "stop number reached; the stores made stand"
    Stopped = 22,
    // of a file: "marked"
    Marked = 23,
    // of a file: "long"
    Long = 24,
    // "level too low"
    LevelTooLow = 25,
    // an index that is not the true one
    IndexUntrue = 26,
    // "bad number"
    BadNumber = 27,
    // "first beyond the end"
    BeyondEnd = 28,
}

impl From<Number> for u32 {
    ghost from_gives = { λ n r. r ≡ number_of n };

    fn from(number: Number) -> u32 {
        number as u32
    }
}

// What is 0, or above the last number.
#[derive(Clone, Copy, PartialEq, Eq)]
pub struct NoRefusal;

impl TryFrom<u8> for Number {
    type Error = NoRefusal;

    ghost try_from_gives = { Decodes };

    fn try_from(number: u8) -> Result<Number, NoRefusal> {
        match number {
            1 => Ok(Number::Unsized),
            2 => Ok(Number::Unsound),
            3 => Ok(Number::UserTooHigh),
            4 => Ok(Number::BadLine),
            5 => Ok(Number::NoFunction),
            6 => Ok(Number::WrongCount),
            7 => Ok(Number::Malformed),
            8 => Ok(Number::IllegalBase),
            9 => Ok(Number::UnfitDeclaration),
            10 => Ok(Number::TextTooLong),
            11 => Ok(Number::NotThere),
            12 => Ok(Number::NoDirectory),
            13 => Ok(Number::ReadInhibited),
            14 => Ok(Number::WriteInhibited),
            15 => Ok(Number::WrongType),
            16 => Ok(Number::Borne),
            17 => Ok(Number::Full),
            18 => Ok(Number::Peopled),
            19 => Ok(Number::NoRoom),
            20 => Ok(Number::ReplyTooShort),
            21 => Ok(Number::LacksBit),
            22 => Ok(Number::Stopped),
            23 => Ok(Number::Marked),
            24 => Ok(Number::Long),
            25 => Ok(Number::LevelTooLow),
            26 => Ok(Number::IndexUntrue),
            27 => Ok(Number::BadNumber),
            28 => Ok(Number::BeyondEnd),
            _ => Err(NoRefusal),
        }
    }
}
