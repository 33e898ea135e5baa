//! Running a server that may go over to a grown workload while it runs (`docs/PROTOCOL.md`, "Growth"): the loop that leads the datagrams of a link through its
//! core, over any link and any sink. It keeps no journal and no log, which `serve` of `roc_node_serve` does for servers of one file.
//!
//! [`serve_growing`] binds the shard's address and runs the server to an end that `ServeEnd` of `roc_node_serve` tells. Its contract cites
//! `specs/ServesGrowing.antt`, which says for each end what the link took and gave and what the sink took, and that there is no other end; and
//! `specs/Pieces.antt` of `roc_node_serve`, which says in how many writes the lines go out. The first rests on the node's
//! run: a fold of one event after another, a datagram that came or silence (`specs/GrownRun.antt`), whose steps are those of a `GrownServer` of `roc_grown`.
//!
//! The layers above may rely on these definitions, and on [`laws`]: what the core took, and of which file, are the deliveries of the run, none of which
//! it skipped. Of faults, of what the link took and of what is told, the same holds as of `serve` of `roc_node_serve`. `specs/Inner/` is of this crate alone.
#![tactic(auto)]

pub mod laws;
mod server_node;
mod server_turns;
mod serving;

pub use serving::serve_growing;
