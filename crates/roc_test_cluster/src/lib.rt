//! Tests of cluster files: texts that are one, and the first fault of others. It gives nothing to use.
#![tactic(auto)]

#[cfg(test)]
mod clusters;
