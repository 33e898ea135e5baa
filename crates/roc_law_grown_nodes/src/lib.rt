//! What people run where a workload grows is what the laws of `roc_growth` speak of: the world of two files, and the nodes of `roc_grown_serve` and
//! `roc_grown_submit`, each of which leads the datagrams of its link through its own core. No code stands here but [`laws`].
//!
//! `specs/GrownInterleaved.antt` has all nodes at once, each run by its own loop, with nothing asked but that each message that a node takes was sent to it before, as
//! one of the file that it takes it for. Datagrams are such where the tags of the two files differ (`spelled_messages_are_caused`). Such runs are a run of the
//! world (`interleaved_grown_nodes_are_a_world`, `specs/GrownWorldOf.antt`), so the laws of the world hold of running nodes: what the coordinators write is explained
//! by one serial order, in which none of the second file stands before one of the first (`interleaved_grown_nodes_are_serial`). That datagrams arrive is not
//! claimed.
#![tactic(auto)]

pub mod laws;
