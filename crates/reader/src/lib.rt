// Reading a request line: the request that it is, or the number that refuses it.
#![tactic(auto)]

mod argument;
mod function;
pub mod request;
