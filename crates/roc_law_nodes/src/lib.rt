//! What people run is what the laws speak of: the world of `roc_law_world`, in which all nodes take their steps, views among what is submitted, and the
//! nodes of `roc_node_serve` and `roc_node_submit`, each of which leads the datagrams of its link through its own core. No code
//! stands here but [`laws`] and [`logs`].
//!
//! `specs/Own.antt` has a node's own events and messages in a run of the world, `specs/Fold.antt` the fold of its core's step over own events, and
//! `specs/Turns.antt` the own events that the turns of a running node bring, and datagrams that spell them. By [`laws`] each node's state and messages
//! in a run of the world are such a fold, a fold is one, a running node is the fold over what its turns bring, and so if its turns spell its own events
//! in a run, the node has the world's state and sent the world's messages (`node_runs_are_the_world`).
//!
//! `specs/Interleaved.antt` has all nodes at once, each run by its own loop, with nothing asked but that each message that a
//! node takes was sent to it before, and `specs/WorldOf.antt` what a world has of them. Such runs are a run of the world
//! (`interleaved_nodes_are_a_world`), so that the laws of the world hold of running nodes: what the coordinators write is explained
//! by one serial order (`interleaved_nodes_are_serial`). There no server keeps a journal. That datagrams arrive is not claimed.
//!
//! `specs/Logs.antt` says which logs are those of the running nodes of a run. By [`logs`] a node logs what the world's node logs there, and an auditor
//! finds a yes in the logs of all nodes.
#![tactic(auto)]

pub mod laws;
pub mod logs;
