// The stages of a request's stores, and the passes over a table that they stand on.
#![tactic(auto)]

pub mod counts;
pub mod naming;
pub mod numbers;
pub mod reading;
pub mod recount;
pub mod rooms;
pub mod stage;
