//! The cells of a shard: a map from cells to numbers that holds 0 wherever nothing was written. Contracts see `Rows` as
//! a `Held` (`specs/Held.antt`): the `Store` of its cells, how many more sets cannot fail, and what the cells held at the
//! savepoint, where there is one. A `Store` (`specs/Store.antt`) is a finite map from cells to integers, in which 0 is the
//! same as nothing.
//!
//! The layers above may rely on this: `get` is `read`, `set` is `write`, a read after a write has what was written in
//! that cell and what was there before in every other, and two stores that read alike are equal ([`laws`]). `nonzero`
//! lists exactly the cells that are not 0, rising. A set cannot fail while `spare` is positive, and takes at most one
//! of it. `rollback` gives back exactly the store that `savepoint` found, and takes no memory.
//!
//! Beside them stand `Versions`: how often each cell was written, up to 2^64 - 1 (`specs/Versions.antt`). `get` is
//! `version`, `count` is `counted`, a count raises the version of its cell by one and of no other ([`laws`]), and with
//! `spare` it is as with sets.
#![tactic(auto)]

mod cell;
pub mod laws;
mod numbers;
mod rows;
mod versions;

pub use cell::Cell;
pub use rows::Rows;
pub use versions::Versions;
