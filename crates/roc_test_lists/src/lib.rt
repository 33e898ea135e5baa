//! Tests of lists, cells, known lists, what waits for them, and orders, in calls that no command makes. It gives nothing to use.
#![tactic(auto)]

#[cfg(test)]
mod lists;
#[cfg(test)]
mod orders;
#[cfg(test)]
mod same;
#[cfg(test)]
mod waiting;
