//! Tests of disks in memory, with calls that fail or stop where told. It gives nothing to use.
#![tactic(auto)]

#[cfg(test)]
mod disks;
#[cfg(test)]
mod same;
