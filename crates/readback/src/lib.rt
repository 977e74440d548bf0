// Prologue steps, read back from a module's function table and unwind infos.
#![tactic(auto)]

pub mod read;
pub mod refusal;
mod step;
