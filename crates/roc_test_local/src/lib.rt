//! Tests of the servers of a cluster that are started and stopped from one place. It gives nothing to use.
#![tactic(auto)]

#[cfg(test)]
mod stops;
