// Memories: partial maps from addresses to bytes, and items read out of any of them.
#![tactic(auto)]

pub mod flat;
pub mod item;
pub mod range;
pub mod reading;
pub mod sparse;
