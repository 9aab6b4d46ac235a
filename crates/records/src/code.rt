// Codes: what is inhibited, one bit each.
ghost use Rattle.std.specs.Prelude.{◌≡◌};
ghost use Rattle.paper.specs.Code.{joined, inhibits, no_read, no_write, lacks};

// "the sum of what is inhibited: execute 4, read 2, write 1"
#[derive(Clone, Copy)]
pub struct Code(pub u8);

impl Code {
    pub const EXECUTE: u8 = 4;

    pub const READ: u8 = 2;

    pub const WRITE: u8 = 1;
    // "code 0..7"
    pub const ALL: u8 = 7;

    // What either of two codes inhibits.
    pub fn joined(self, other: Code) -> Code
        ensures { result.0 ≡ joined self.0 other.0 }
    {
        Code(self.0 | other.0)
    }

    // Whether this code inhibits what the mask stands for.
    fn inhibits(self, mask: u8) -> bool
        ensures { result ≡ inhibits mask self.0 }
    {
        self.0 & mask != 0
    }

    pub fn inhibits_read(self) -> bool
        ensures { result ≡ no_read self.0 }
    {
        self.inhibits(Code::READ)
    }

    pub fn inhibits_write(self) -> bool
        ensures { result ≡ no_write self.0 }
    {
        self.inhibits(Code::WRITE)
    }

    // Whether this code lacks a bit of another.
    pub fn lacks(self, old: Code) -> bool
        ensures { result ≡ lacks self.0 old.0 }
    {
        old.0 | self.0 != self.0
    }
}
