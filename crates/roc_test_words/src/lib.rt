//! Tests of the words of the command line. It gives nothing to use.
#![tactic(auto)]

#[cfg(test)]
mod lines;
#[cfg(test)]
mod refused;
