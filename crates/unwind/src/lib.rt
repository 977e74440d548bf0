// Undoing one frame of a stopped program.
#![tactic(auto)]

mod base;
mod carry;
pub mod chain;
mod code;
pub mod epilogue;
mod frame;
mod undo;
