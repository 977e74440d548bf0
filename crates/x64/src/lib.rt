// The instructions that compiled plans are made of: what they are, their bytes, and reading them back.
#![tactic(auto)]

pub mod decode;
pub mod encode;
pub mod instruction;
