//! A disk that may stop at any moment: files by name, each a row of bytes, as a trait with a crash model.
//!
//! Between two syncs a stop may leave any bytes in each range that was written and in the part past the old end; other
//! bytes stay (`Torn` and `Cut`, `specs/Stops.antt`). After a sync that answered Ok a stop leaves what a read gives, and
//! what a read gives is always one of the images that a stop may leave. A disk has a clock, so that each call says which
//! images a stop may have left at every moment since it began, between two calls and inside one (`Elapses`); callers hand
//! this on as `LeavesOnly` over several calls.
//!
//! All of this holds as far as the disk tells it: one that tells nothing, as a machine's file, meets the trait too, and a
//! disk that stopped telling never begins again. The count of failures holds of each disk, as in `roc_io`.
#![tactic(auto)]

mod disk;

pub use disk::{Disk, DiskDone, DiskLen};
