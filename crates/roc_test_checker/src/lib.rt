//! Tests of what the rows of `check` do not show of the checker's calls. It gives nothing to use.
#![tactic(auto)]

#[cfg(test)]
mod calling;
#[cfg(test)]
mod cycles;
#[cfg(test)]
mod growth;
#[cfg(test)]
mod merging;
#[cfg(test)]
mod plans;
#[cfg(test)]
mod same;
