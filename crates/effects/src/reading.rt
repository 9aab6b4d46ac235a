// A file's text, gathered by position.
ghost use Rattle.std.specs.Prelude.{◌≡◌, take, drop};
ghost use Rattle.std.proofs.lemmas.List.Edits.{sets};
ghost use Rattle.effects.specs.Listed.{gathered};

use crate::rooms::room_at;
use records::bytes::{Bytes, Room, part};
use records::text::{Text, held_at};

// A piece that is no whole block. A byte at a time, and no `copy_in`: of a length that is not known it calls `memmove` here, and the archive for C
// asks the C library for `memcpy` and `memset` alone.
fn copy_short(into: &mut [u8], at: usize, piece: &[u8])
    ensures { into.new ≡ sets into.old at piece.now }
{
    if at < into.len() {
        let fit = part(piece, 0, Bytes(into.len() - at));
        for (j, byte) in fit.iter().enumerate() {
            into[at + j] = *byte;
        }
    }
}

// A piece of a text copied into others from a place on, as much as fits; a whole block is a few moves of the machine.
fn copy_piece(into: &mut [u8], at: usize, piece: &[u8])
    ensures { into.new ≡ sets into.old at piece.now }
{
    if piece.len() == Text::MOST_HELD && Text::MOST_HELD <= into.len().saturating_sub(at) {
        into[at..at + Text::MOST_HELD].copy_from_slice(&piece[..Text::MOST_HELD]);
    } else {
        copy_short(into, at, piece);
    }
}

// Of what the text records from one position up to another hold, which are listed by position in `rooms`: at most so many bytes, but
// for the first so many, copied to the front of `into`, as many as fit.
pub fn read_text(
    table: &[u8],
    rooms: &[u16; Text::MOST],
    from: Room,
    end: Room,
    first: Bytes,
    most: Bytes,
    into: &mut [u8],
)
    ensures { into.new ≡ sets into.old 0
        (take most.0 (drop first.0 (gathered table.now rooms.now from.0 end.0))) }
{
    let mut left = most.0;
    let mut skip = first.0;
    for p in from.0..end.0 {
        let bytes = held_at(table, room_at(rooms, p));
        let piece = part(bytes, skip, Bytes(left));
        copy_piece(into, most.0 - left, piece);
        left -= piece.len();
        skip = skip.saturating_sub(bytes.len());
    }
}
