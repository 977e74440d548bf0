// The notations of the conformance program's lines: reading them out of bytes, and writing them.
#![tactic(auto)]

pub mod bad;
pub mod bytes;
pub mod number;
pub mod parts;
pub mod record;
pub mod write;
