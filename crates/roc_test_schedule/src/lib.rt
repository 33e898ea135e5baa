//! Tests of schedules and request files. It gives nothing to use.
#![tactic(auto)]

#[cfg(test)]
mod schedules;
