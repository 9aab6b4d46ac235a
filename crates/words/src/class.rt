// Classes of bytes, and how far a line has bytes of one.
ghost use Rattle.std.specs.Prelude.{◌≡◌};
ghost use Rattle.paper.specs.Name.{in_name, in_base, in_number};
ghost use Rattle.paper.specs.Octal.{in_octal};
ghost use Rattle.paper.specs.Line.{is_blank, in_line};
ghost use Rattle.words.specs.Place.{reach, is_plain, name_end};

pub(crate) fn in_line(b: u8) -> bool
    ensures { result ≡ in_line b }
{
    matches!(b, b' '..=b'_')
}

// Of a link name.
pub(crate) fn in_name(b: u8) -> bool
    ensures { result ≡ in_name b }
{
    matches!(b, b'!'..=b'_') && !matches!(b, b':' | b'@')
}

// Of a base name of three characters or more: a letter or a point.
pub(crate) fn in_base(b: u8) -> bool
    ensures { result ≡ in_base b }
{
    matches!(b, b'.' | b'A'..=b'Z')
}

pub(crate) fn is_digit(b: u8) -> bool
    ensures { result ≡ in_number b }
{
    matches!(b, b'0'..=b'9')
}

pub(crate) fn is_octal(b: u8) -> bool
    ensures { result ≡ in_octal b }
{
    matches!(b, b'0'..=b'7')
}

// A byte that neither ends a name nor joins two.
fn is_plain(b: u8) -> bool
    ensures { result ≡ is_plain b }
{
    !matches!(b, b' ' | b':')
}

// Where the name at p ends: at a blank, a colon or the line's end. No `skip(p)`: it steps over the bytes before p, one by one.
pub(crate) fn name_end(line: &[u8], p: usize) -> usize
    ensures { result ≡ name_end line.now p }
{
    for i in p..line.len() {
        if !is_plain(line[i]) {
            return i;
        }
    }
    p.max(line.len())
}

// Where the blanks from p on end.
pub(crate) fn past_blanks(line: &[u8], p: usize) -> usize
    ensures { result ≡ reach is_blank line.now p }
{
    for i in p..line.len() {
        if line[i] != b' ' {
            return i;
        }
    }
    p.max(line.len())
}
