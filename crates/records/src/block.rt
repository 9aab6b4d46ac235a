// The block rule, the one place where a count of bytes becomes a count of records.
ghost use Rattle.std.specs.Prelude.{◌≡◌};
ghost use Rattle.paper.specs.Block.{blocks, share, block};

use crate::bytes::{Bytes, Room, part};
use crate::text::Text;

// How many text records so many bytes take.
pub fn blocks(length: Bytes) -> Room
    ensures { result.0 ≡ blocks length.0 }
{
    let n = length.0;
    Room(n / Text::MOST_HELD + (n % Text::MOST_HELD + (Text::MOST_HELD - 1)) / Text::MOST_HELD)
}

// What a position holds of so many bytes.
pub fn share(length: Bytes, position: Room) -> Bytes
    ensures { result.0 ≡ share length.0 position.0 }
{
    let before = position.0.saturating_mul(Text::MOST_HELD);
    Bytes(length.0.saturating_sub(before).min(Text::MOST_HELD))
}

// The bytes of a text at a position, as the stretch of the text that they are.
pub fn block_at(text: &[u8], position: Room) -> &[u8]
    ensures { result.now ≡ block text.now position.0 }
{
    let before = position.0.saturating_mul(Text::MOST_HELD);
    part(text, before, Bytes(Text::MOST_HELD))
}
