// The parts of a declaration.
ghost use Rattle.std.specs.Prelude.{◌≡◌, ◌≤◌};
ghost use Rattle.paper.specs.Declaration.{width, type_letter, lifetime_letter, level_letter, digit};
ghost use Rattle.records.specs.Part.{shown_part, meant_part};

use records::heading::Heading;

// The number that a part gives, if it is given.
pub type Part = Option<u8>;

// Each part by a match on its byte: four alphabets.

#[tactic(auto, unfolding(paper::specs::Declaration::type_letter))]
pub(crate) fn kind_of(b: u8) -> Part
    ensures { result ≡ shown_part (type_letter b) }
{
    match b {
        b'D' => Some(0),
        b'F' => Some(1),
        _ => None,
    }
}

#[tactic(auto, unfolding(paper::specs::Declaration::lifetime_letter))]
pub(crate) fn lifetime_of(b: u8) -> Part
    ensures { result ≡ shown_part (lifetime_letter b) }
{
    match b {
        b'S' => Some(0),
        b'M' => Some(Heading::MEDIUM),
        b'L' => Some(2),
        _ => None,
    }
}

#[tactic(auto, unfolding(paper::specs::Declaration::level_letter))]
pub(crate) fn level_of(b: u8) -> Part
    ensures { result ≡ shown_part (level_letter b) }
{
    match b {
        b'U' => Some(0),
        b'P' => Some(1),
        b'A' => Some(2),
        b'S' => Some(3),
        _ => None,
    }
}

#[tactic(auto, unfolding(paper::specs::Declaration::digit))]
pub(crate) fn digit_of(b: u8) -> Part
    ensures { result ≡ shown_part (digit b) }
{
    match b {
        b'0'..=b'7' => Some(b - b'0'),
        _ => None,
    }
}

// How many bytes a part takes.
pub(crate) fn width(part: Part) -> usize
    ensures bytes { result ≡ width (meant_part part) }
    ensures most { result ≤ 1 }
{
    usize::from(part.is_some())
}
