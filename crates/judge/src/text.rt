// Text by slots: each simple file has one for each position of its text, and each text record takes its own.
ghost use Rattle.std.specs.Prelude.{◌≡◌, true, false, ◌&&◌, ◌+◌, ◌<◌, ◌≤◌, ◌%◌, length, get_or};
ghost use Rattle.paper.specs.Record.{byte, simple, position, zeros};
ghost use Rattle.paper.specs.Layout.{boxed};
ghost use Rattle.paper.specs.Table.{rooms, rec};
ghost use Rattle.paper.specs.Sound.{text_as_above, in_place, shaped};
ghost use Rattle.judge_laws.specs.Mask.{without};
ghost use Rattle.judge_laws.specs.Places.{starts, Laid, Marked};
ghost use Rattle.judge_laws.specs.Shapes.{right_at};

use crate::heading::{is_heading, is_simple, weight_of};
use crate::read::{byte_of, two_of};
use crate::zeros::are_zeros;
use records::bytes::Room;
use records::heading::Heading;
use records::text::Text;

// How many slots the table has; if there are no more than records, each heading's first slot is laid down.
pub(crate) fn lay_out(t: &[u8], gone: &[u8; Room::MOST], start: &mut [u16; Room::MOST]) -> usize
    requires { (length t.now % 32 ≡ 0) × (length t.now ≤ 65536) × (length start.old ≡ 2048) }
    ensures { (rooms t.now < result → shaped boxed (without gone.now t.now) ≡ false)
        × (result ≤ rooms t.now → Laid (without gone.now t.now) start.new
        × (result ≡ starts (without gone.now t.now) (rooms t.now))) }
{
    let n = t.len() / Room::SIZE;
    let mut slots: usize = 0;
    for h in 0..n {
        if is_heading(t, gone, h) {
            start[h] = slots as u16;
            slots += weight_of(t, gone, h);
            if n < slots {
                return slots;
            }
        }
    }
    slots
}

// Whether text record i, at position p, holds what it may of the file of heading h: a full block ends where the file does or before, and
// needs no padding; the last one ends there.
fn is_block_right(t: &[u8], h: usize, p: usize, i: usize) -> bool
    requires { (i < rooms t.now) × (h < rooms t.now) × (simple (rec t.now h) ≡ true) × (p ≡ position (rec t.now i)) × (p < 65536)
        × (zeros 6 2 (rec t.now i) ≡ true) }
    ensures { result ≡ (text_as_above 0 (rec t.now i) && in_place (rec t.now h) (rec t.now i)) }
{
    let held = byte_of(t, i, Text::HELD);
    let length = two_of(t, h, Heading::LENGTH);
    let end = p * Text::MOST_HELD + held;
    match held {
        Text::MOST_HELD => end <= length,
        1..=Text::MOST_HELD => {
            end == length && are_zeros(t, i, Text::BYTES + held, Text::MOST_HELD - held)
        }
        _ => false,
    }
}

// Whether text record i, at position p, is right and in place in the file of heading h.
fn is_text_right(t: &[u8], gone: &[u8; Room::MOST], h: usize, p: usize, i: usize) -> bool
    requires { (i < rooms t.now) × (length t.now % 32 ≡ 0) × (length t.now ≤ 65536) × (p ≡ position (rec t.now i)) × (p < 65536) }
    ensures { result ≡ (text_as_above 0 (rec t.now i)
        && in_place (rec (without gone.now t.now) h) (rec t.now i)) }
{
    are_zeros(t, i, Text::GAP, Text::GAP_SIZE)
        && h < t.len() / Room::SIZE
        && is_simple(t, gone, h)
        && is_block_right(t, h, p, i)
}

// Text record i takes its slot: whether it is right, in place, and the slot was free.
pub(crate) fn text_turn(
    t: &[u8],
    gone: &[u8; Room::MOST],
    start: &[u16; Room::MOST],
    mark: &mut [u8; Room::MOST],
    i: usize,
) -> bool
    requires { (i < rooms t.now) × Laid (without gone.now t.now) start.now × Marked (without gone.now t.now) mark.old i
        × (byte (rec t.now i) 0 ≡ 3) × (get_or gone.now i 0 ≡ 0) }
    ensures { (result ≡ false → shaped boxed (without gone.now t.now) ≡ false)
        × (result ≡ true → (right_at (without gone.now t.now) i ≡ true)
        × Marked (without gone.now t.now) mark.new (i + 1)) }
{
    let h = two_of(t, i, Text::HEADING);
    let p = two_of(t, i, Text::POSITION);
    if !is_text_right(t, gone, h, p, i) {
        return false;
    }
    let s = usize::from(start[h]) + p;
    if mark[s] != 0 {
        return false;
    }
    mark[s] = 1;
    true
}
