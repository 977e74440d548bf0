// Records in the caller's memory: one search and one list for every kind of them.
#![tactic(auto)]

pub mod list;
pub mod span;
