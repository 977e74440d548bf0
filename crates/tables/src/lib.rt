// Function tables: their entries, loading one, and a module with its checks.
#![tactic(auto)]

pub mod area;
pub mod entry;
pub mod load;
pub mod module;
pub mod refusal;
mod table;
