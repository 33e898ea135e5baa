//! Tests of generated load. It gives nothing to use.
#![tactic(auto)]

#[cfg(test)]
mod loads;
