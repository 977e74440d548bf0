// The limit layer: a memory that shows only what lies inside its windows.
#![tactic(auto)]

mod admission;
pub mod layer;
pub mod table;
pub mod window;
