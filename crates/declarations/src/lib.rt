// Declarations: their parts, each given or not given, and what each function takes of them.
#![tactic(auto)]

pub mod declaration;
pub mod part;
pub mod taken;
