//! Servers and coordinators that go over to a grown workload while they run (`docs/PROTOCOL.md`, "Growth").
//!
//! A [`GrownServer`] is a server of its own file's plan, and a [`GrownCoord`] is a coordinator of it: the first file's until it has switched, and the
//! second one's from then on. Contracts see them as the `GrownServerState` and the `GrownCoordState` of `specs/Server.antt` and `specs/Coord.antt`.
//! What comes of a message of their own file is what comes of it at a server (`roc_server`) or a coordinator (`roc_coord`) of that plan, and a message of
//! the other file they skip ([`GrownServer::takes`], [`GrownCoord::takes`]).
//!
//! A coordinator that drains ([`GrownCoord::drain`]) takes no submission, and tells each shard as soon as nothing of what it submitted is unanswered, and
//! at each tick from then on. A server that each of the coordinators has told goes over to the second file: it keeps cells, versions and watermarks, and
//! tells each coordinator. A coordinator that each shard has told goes over, too.
//!
//! The layers above may rely on this: each call is exactly what those definitions say, whatever the message, forged ones too, under any plans that its
//! node fits (`specs/Fits.antt`), and the node fits them behind it; what is refused, ignored or skipped changes nothing and sends nothing; a tick
//! changes nothing. Where memory ends, the node and what the outbox holds are as they were, but for their room, so the same call may be made again.
//! What comes of a message at a server is one, and where nothing comes next these nodes are those of `roc_server` and `roc_coord` ([`laws`]).
#![tactic(auto)]

mod coord;
mod drained;
mod handled;
pub mod laws;
mod server;
mod told;

pub use coord::GrownCoord;
pub use handled::{GrownAnswer, GrownFault, GrownHandled};
pub use server::GrownServer;
