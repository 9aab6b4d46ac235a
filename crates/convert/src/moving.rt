// A table converted in its place, record by record, either way.
ghost use Rattle.std.specs.Prelude.{true, ◌≡◌, ◌<◌};
ghost use Rattle.paper.specs.Layout.{Layout, name_of, old, six};
ghost use Rattle.paper.specs.Table.{sized, rooms, rec};
ghost use Rattle.paper.specs.Effect.{renamed};
ghost use Rattle.paper.specs.Convert.{converted};
ghost use Rattle.convert.specs.Turned.{turned};
ghost use Rattle.layouts.proofs.Lengths.{Fits, fits-to, fits-from};

use crate::old::{old_name, old_record};
use records::bytes::{Room, kind_of, rooms};
use records::entry::{Entry, name_of, renamed};
use records::store::store;

// A way that names go, from one layout into another.
pub(crate) trait Way {
    ghost from: { Layout };

    ghost into: { Layout };

    // An entry's record with its name in the other layout.
    fn moved(table: &[u8], room: Room) -> [u8; Room::SIZE]
        requires { room.0 < rooms table.now }
        ensures { result ≡ renamed into (rec table.now room.0) (name_of from (rec table.now room.0)) };

    // A record that is moved has 32 bytes again.
    ghost fits: { Fits from into };
}

// An old entry's name becomes six-bit codes.
pub(crate) struct ToSix;

impl Way for ToSix {
    ghost from = { old };

    ghost into = { six };

    fn moved(table: &[u8], room: Room) -> [u8; Room::SIZE] {
        renamed(table, room, old_name(table, room))
    }

    ghost fits = { fits-to };
}

// A six-bit entry's name is laid as document 01 lays it.
pub(crate) struct FromSix;

impl Way for FromSix {
    ghost from = { six };

    ghost into = { old };

    fn moved(table: &[u8], room: Room) -> [u8; Room::SIZE] {
        let name = name_of(table, room);
        old_record(table, room, &name.characters[..name.length])
    }

    ghost fits = { fits-from };
}

// Record i moved in its place, if it is an entry.
fn move_turn<W: Way>(table: &mut [u8], i: usize)
    requires { i < rooms table.old }
    ensures { table.new ≡ turned W.from W.into table.old i }
{
    if kind_of(table, Room(i)) == Entry::KIND {
        let r = W::moved(table, Room(i));
        store(table, Room(i), r);
    }
}

// Every entry moved in its place.
pub(crate) fn convert_all<W: Way>(table: &mut [u8])
    requires { sized table.old ≡ true }
    ensures { table.new ≡ converted W.from W.into table.old }
{
    for i in 0..rooms(table).0 {
        move_turn::<W>(table, i);
    }
}
