//! Groups of pieces: what merging gives, why it cannot, and which groups the protocol may rely on.
//!
//! A group is the unit that a server runs (ROCOCO, OSDI 2014): one piece, or several immediate pieces of a procedure at
//! one place that may not be cut. Contracts see [`Groups`] as a list for each procedure, of lists of piece numbers
//! (`specs/Groups.antt`). `specs/Flow.antt` has the data flow between pieces, `specs/Core.antt` the pieces of a
//! procedure that have to run as one and which workloads are acceptable, `specs/Grouping.antt` the groups that merging
//! gives, `specs/Refusals.antt` the reasons to refuse, and `specs/Accepted.antt` what is asked of the groups of a plan
//! (`docs/CHECKER.md`, "Merging" and "Accepted groups").
//!
//! The layers above may rely on [`laws`]: one grouping at most is the merged one, and the merged groups of an
//! acceptable workload are accepted; the graph over groups that are accepted in all else has no unreorderable cycle
//! exactly if the contended pieces of each procedure are in one group; of accepted groups, those in conflict are of one
//! class, two of one procedure never conflict if one of them is immediate, and what a group needs of others comes from
//! immediate ones.
#![tactic(auto)]

mod groups;
pub mod laws;

pub use groups::Groups;
