// The records of a lent table: bytes and numbers in them, codes, names, the kinds of record, and one store.
#![tactic(auto)]

pub mod block;
pub mod bytes;
pub mod code;
pub mod entry;
pub mod heading;
pub mod name;
pub mod packing;
pub mod store;
pub mod text;
