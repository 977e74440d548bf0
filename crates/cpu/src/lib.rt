// What instructions do to registers and to a stack area in the caller's bytes.
#![tactic(auto)]

pub mod intent;
pub mod processor;
