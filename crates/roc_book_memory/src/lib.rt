//! Books in memory, for tests: no crate of the program stands on it. [`MemBook`] fails at chosen calls, and the count of [`CalmBook`] is
//! always 0, so that what holds unless a count rose holds of it without a premise.
//!
//! `specs/Book.antt` has what each keeps. Opens and writes are counted together, and the first call is number 1. Once memory is wanting
//! for a name or a piece, names or bytes are told no more, and the answers stay as they were. A book that was not opened takes pieces too.
#![tactic(auto)]

mod book;

pub use book::{CalmBook, MemBook};
