// A worked example: one function with a step of each kind, and its bytes.
#![tactic(auto)]

pub mod example;
