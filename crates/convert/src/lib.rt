// The names of a lent table converted to document 02's six-bit ones, and back: "Converting a sound old table and back loses nothing (others
// get 1 or 2 and stay)."
#![tactic(auto)]

mod moving;
mod old;

ghost use Rattle.std.specs.Prelude.{◌≡◌};
ghost use Rattle.paper.specs.Layout.{old, six};
ghost use Rattle.paper.specs.Convert.{converting};

use crate::moving::{FromSix, ToSix, convert_all};
use crate::old::are_legible;
use judge::judge;
use records::bytes::is_sized;

// To six-bit names. A table that is not legible is not sound; one that is, is sound if its conversion is, and where that is not, converting back
// restores every byte.
pub fn to_six(table: &mut [u8]) -> u8
    ensures { (result ≡ (converting old six table.old).number) × (table.new ≡ (converting old six table.old).table) }
{
    if !is_sized(table) {
        return 1;
    }
    if !are_legible(table) {
        return 2;
    }
    convert_all::<ToSix>(table);
    if judge(table) != 0 {
        convert_all::<FromSix>(table);
        return 2;
    }
    0
}

// From six-bit names.
pub fn from_six(table: &mut [u8]) -> u8
    ensures { (result ≡ (converting six old table.old).number) × (table.new ≡ (converting six old table.old).table) }
{
    let number = judge(table);
    if number != 0 {
        return number;
    }
    convert_all::<FromSix>(table);
    0
}
