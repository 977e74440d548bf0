// The plain data that every layer shares: addresses, registers, little-endian words, refusals by number, and the cursor
// that writes over a lent slice.
#![tactic(auto)]

pub mod address;
pub mod cursor;
pub mod refusal;
pub mod registers;
pub mod word;
