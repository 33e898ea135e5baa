//! Tests of the least orders and cycles of pairs, of the test of serial witnesses, of books, and of logs that are audited at once. It gives nothing to use.
#![tactic(auto)]

#[cfg(test)]
mod books;
#[cfg(test)]
mod histories;
#[cfg(test)]
mod logs;
#[cfg(test)]
mod precedence;
#[cfg(test)]
mod same;
#[cfg(test)]
mod witnesses;
