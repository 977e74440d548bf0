// The code of a compiled function: how many bytes it has, and writing it.
#![tactic(auto)]

pub mod function;
mod operations;
pub mod part;
