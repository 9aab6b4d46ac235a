// A request line: its words, the names of a chain as parts of the line, and which names are well formed and legal.
#![tactic(auto)]

pub mod begin;
mod class;
pub mod line;
pub mod name;
pub mod octal;
