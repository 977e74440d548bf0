// The kinds of prologue steps, behind one interface.
#![tactic(auto)]

pub mod allocate;
pub mod kind;
pub mod push;
pub mod save;
pub mod set_frame;
