//! Whether a workload is a grown one of another: what a cluster that runs the one may go over to while it runs.
//!
//! A grown workload has as many shards, the old tables and procedures in front of what it adds, each of the same text, and the same cells at the
//! start (`specs/Grown.antt`). So all that is said of an old procedure or table by number means the same in both. [`extends`] tells whether one plan's
//! workload is a grown one of another's, or what is wrong first, in the order of [`GrowthFault`] (`specs/Growth.antt`), and takes no memory.
//!
//! Nodes that go over from the one to the other know the grown one as [`Next`]. What a node sends is of the file that it runs, but for a drained and a switched,
//! which are of neither ([`File`], [`file_of`], `specs/Files.antt`).
//!
//! The layers above may rely on this: of two programs there is exactly one answer, and under a grown program the numbers and names of old procedures
//! and tables mean what they did ([`laws`]).
#![tactic(auto)]

mod fault;
mod file;
mod growth;
pub mod laws;
mod next;

pub use fault::GrowthFault;
pub use file::{File, file_of, is_between, is_for, own_file};
pub use growth::extends;
pub use next::{Next, last_plan, own_plan};
