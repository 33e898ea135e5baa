//! Disks in memory, for tests: no crate of the program stands on it. [`MemDisk`] fails or stops at the calls that it was
//! told to fail or stop at, and loses then what a [`Tear`] says; [`CalmDisk`] never fails.
//!
//! A disk keeps each version that a file had (`specs/Versions.antt`): what a read gave, and what a stop would have left
//! in its place. Once memory is wanting for a version, or where a write or a cut goes past the end of the file, it tells
//! no more, and the answers stay as they were.
#![tactic(auto)]

mod bytes;
mod calls;
mod calm;
mod mem;
mod store;

pub use bytes::Tear;
pub use calm::CalmDisk;
pub use mem::MemDisk;
