//! Tests of the outsides in memory, with calls that fail where told. It gives nothing to use.
#![tactic(auto)]

#[cfg(test)]
mod children;
#[cfg(test)]
mod files;
#[cfg(test)]
mod links;
#[cfg(test)]
mod same;
