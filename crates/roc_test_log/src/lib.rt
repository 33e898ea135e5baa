//! Tests of logs. It gives nothing to use.
#![tactic(auto)]

#[cfg(test)]
mod logs;
