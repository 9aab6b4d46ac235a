// Stores: bytes copied into a lent stretch, and one record laid or cleared.
ghost use Rattle.std.specs.Prelude.{◌≡◌};
ghost use Rattle.std.proofs.lemmas.List.Edits.{sets};
ghost use Rattle.paper.specs.Record.{blank, padded};
ghost use Rattle.paper.specs.Table.{rec, lay};

use crate::bytes::{Bytes, Room, part, record_at, rooms};

// Bytes copied into others from a place on, as many as fit.
pub fn copy_in(into: &mut [u8], at: usize, from: &[u8])
    ensures { into.new ≡ sets into.old at from.now }
{
    if at < into.len() {
        let fit = part(from, 0, Bytes(into.len() - at));
        let end = at + fit.len();
        into[at..end].copy_from_slice(fit);
    }
}

// One store: a record laid at its place. Past the end nothing changes.
pub fn store(table: &mut [u8], room: Room, bytes: [u8; Room::SIZE])
    ensures { table.new ≡ lay table.old room.0 bytes }
{
    let at = room.0.saturating_mul(Room::SIZE);
    if room.0 < rooms(table).0 {
        let end = at + Room::SIZE;
        table[at..end].copy_from_slice(&bytes);
    } else {
        copy_in(table, at, &bytes);
    }
}

// A record cleared.
#[tactic(auto, unfolding(paper::specs::Record::blank))]
pub fn clear(table: &mut [u8], room: Room)
    ensures { table.new ≡ lay table.old room.0 blank }
{
    store(table, room, [0u8; Room::SIZE]);
}

// A record's 32 bytes, zero where the table has none.
pub fn whole(table: &[u8], room: Room) -> [u8; Room::SIZE]
    ensures { result ≡ padded 32 (rec table.now room.0) }
{
    let record = record_at(table, room);
    let mut r = [0u8; Room::SIZE];
    if record.len() == Room::SIZE {
        r.copy_from_slice(record);
    } else {
        copy_in(&mut r, 0, record);
    }
    r
}
