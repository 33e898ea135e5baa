//! Cluster files: where the server of each shard is.
//!
//! The contract of [`parse_cluster`] cites `IsClusterFile` of `specs/File.antt`, which says which bytes are a cluster
//! file and of which cluster, and `IsClusterFault` of `specs/Answer.antt`: the fault of the first rule of
//! `specs/Rules.antt` that the bytes break. In words both stand in `docs/FORMATS.md`, "Cluster files". The layers above
//! see a [`Cluster`] as the list of its addresses, one for each shard in order, and may rely on [`laws`]: bytes are the
//! file of at most one cluster, and have at most one first fault; a cluster file breaks no rule.
#![tactic(auto)]

mod cluster;
mod document;
mod entry;
mod fault;
pub mod laws;
mod parse;
mod seats;

pub use cluster::Cluster;
pub use fault::{ClusterFault, FieldName};
pub use parse::parse_cluster;
