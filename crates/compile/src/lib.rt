// Compiling a plan into code, unwind infos and a function table.
#![tactic(auto)]

pub mod compile;
mod info;
mod layout_of;
pub mod lengths;
mod writing;
