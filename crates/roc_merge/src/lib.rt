//! Merging: the pieces of a workload that may not be cut become one group, or the workload is refused.
//!
//! Of each procedure the contended pieces and those between two of them on the data flow are one group, if they are at
//! one place (transaction chopping, TODS 1995; merging of immediate pieces, ROCOCO, OSDI 2014). `docs/CHECKER.md` says
//! it with examples, and the words of the contracts stand in `roc_merge_groups`.
//!
//! The layers above may rely on this: [`merge`] gives the merged groups exactly if the workload is acceptable (or finds
//! no memory for them), and else names exactly the first reason: the first two pieces that are apart, or, if no two are
//! apart, the first two with a piece between them that is not at their place.
#![tactic(auto)]

mod apart;
mod between;
mod group;
mod merging;
mod refusal;
mod tables;

pub use merging::merge;
pub use refusal::Refusal;
