//! What a server keeps for views, and what comes of a step for reads (`docs/PROTOCOL.md`, "Views"): how often each cell was written, the reads that wait,
//! which of them are free, and what is answered to these. Nothing here tells what a step tries: what of it holds reads up is lent as a [`Behind`].
//!
//! Contracts read [`Views`] by its fields, and as the `Viewing` of `roc_step` (`viewing_of` of `specs/Views.antt`). They see a [`Behind`] as the cells, the
//! groups and the decided transactions that a step leaves (`LeftBehind` of `specs/Behind.antt`).
//!
//! The layers above may rely on this: [`find_reads`] answers exactly the reads that are free behind the step, in turn, and gives those that stay
//! (`AreReadsFound` of `specs/Answering.antt`); [`keep_views`] then counts what ran and keeps them, and takes no memory. Whatever wants memory leaves the
//! counts and the reads that wait as they were. With a read that waits stands the group that held it up last: while that group still does, a step looks at
//! it alone, and else goes over the groups at the read's cells (`looks_for_all` of `specs/Looks.antt`).
#![tactic(auto)]

mod answering;
mod behind;
mod free_reads;
mod held_up;
mod kept_reads;
mod readoks;
mod refusals;
mod turns;
mod views;

pub use answering::find_reads;
pub use behind::Behind;
pub use refusals::read_refusal;
pub use views::{StayingReads, Views, drop_reads, keep_views};
