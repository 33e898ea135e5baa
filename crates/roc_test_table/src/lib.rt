//! Tests of the table of lists, in calls that no command makes. It gives nothing to use.
#![tactic(auto)]

#[cfg(test)]
mod lists;
