// Unwind infos: the view of one, its codes, and a list of them.
#![tactic(auto)]

pub mod code;
pub mod codes;
pub mod info;
pub mod listing;
pub mod reading;
pub mod refusal;
pub mod sequence;
