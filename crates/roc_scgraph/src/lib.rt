//! The SC-graph of a workload (Shasha, Llirbat, Simon, Valduriez, TODS 1995; with immediate conflicts told apart:
//! ROCOCO, OSDI 2014): its vertices are the pieces of two instances of each procedure, S-edges join the pieces of one
//! instance, and C-edges join conflicting pieces of two. `specs/Graph.antt` says which edge joins two vertices, and
//! `specs/Cycles.antt` which cycles no reordering undoes (`IsUnreorderable`); in words and with an example both stand
//! in `docs/CHECKER.md`.
//!
//! The layers above may rely on this: [`edge`] is exactly that edge, and takes no memory; [`Vertex::is_before`] is the
//! order of `specs/Order.antt`; and by [`laws`] a procedure has an unreorderable cycle through an S-edge of its own
//! exactly if two of its immediate pieces are contended, and then one of at most six vertices between each two of them.
#![tactic(auto)]

mod graph;
pub mod laws;
mod vertex;

pub use graph::edge;
pub use vertex::{Instance, Kind, Vertex};
