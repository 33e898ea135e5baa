//! A square of bits that says which number leads to which, kept row by row, and what numbers lead to by chains of them.
//!
//! Numbers are those of rows elsewhere. A row is as many words of 64 bits as the greatest number takes to which it leads, so rows in which
//! hundreds of numbers each lead to hundreds of others are a few words each. [`BitRows::reached`] joins one row for each number that it finds:
//! what it costs does not grow with how many bits are set. Contracts speak of single bits alone (`specs/Bits.antt`).
//!
//! A column is cleared by a mark that its number is stale, without a look at any row. Once a stale number is named again, all stale bits are taken
//! out of all rows. So the rows are looked at seldom where numbers come back long after they were cleared.
//!
//! [`least`] gives the sixteen least of transactions by id (`specs/Least.antt`).
#![tactic(auto)]

mod bit_rows;
mod least_ids;
mod rows;
mod words;

pub use bit_rows::BitRows;
pub use least_ids::least;
