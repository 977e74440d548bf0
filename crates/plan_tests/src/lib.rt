// Tests of descriptions and the compiler: worked examples, boundaries, and buffers that a refusal leaves alone.
#![tactic(auto)]

mod compiled;
mod plans;
mod refused;
