// From a chain to an entry. "The walk carries one small state from link to link: the directory, the entry, the joined code."
#![tactic(auto)]

pub mod chain;
pub mod end;
pub mod state;
