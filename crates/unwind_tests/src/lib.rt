// Tests of undoing frames.
#![tactic(auto)]

#[cfg(test)]
mod epilogues;
