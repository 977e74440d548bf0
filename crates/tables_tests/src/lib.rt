// Examples of tables and infos; most cases are lines of the conformance program.
#![tactic(auto)]

#[cfg(test)]
mod damage;
#[cfg(test)]
mod examples;
