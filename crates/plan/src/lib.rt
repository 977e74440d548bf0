// Descriptions of functions by the steps of their prologues and the operations of their bodies, and which are accepted.
#![tactic(auto)]

pub mod check;
pub mod operation;
pub mod refusal;
mod rules;
pub mod step;
pub mod survey;
pub mod text;
