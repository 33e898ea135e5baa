//! Tests of datagrams: spellings, first faults and limits. It gives nothing to use.
#![tactic(auto)]

#[cfg(test)]
mod datagrams;
#[cfg(test)]
mod limits;
