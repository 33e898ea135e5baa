//! Tests of the program over files, streams, a link, children, a disk and a book in memory that fail where told. It gives nothing to use.
#![tactic(auto)]

#[cfg(test)]
mod cases;
#[cfg(test)]
mod nodes;
#[cfg(test)]
mod outside;
#[cfg(test)]
mod runs;
#[cfg(test)]
mod same;
#[cfg(test)]
mod texts;
