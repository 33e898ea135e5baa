//! A server that keeps what it took in a journal, so that it may stop at any moment and start again (`docs/PROTOCOL.md`, "Restarts";
//! `docs/FORMATS.md`, "Journal"); and the same server without a journal, so that its callers are one.
//!
//! The layers above may rely on this. A message that a server takes, or that comes too late, is in the journal before it is applied and before
//! what comes of it is given ([`KeptServer::handle`]); a read of a view and what is ignored touch no disk. A stop at any moment of a call, inside
//! a write too, leaves a file that gives the state before the message or behind it, kept reads aside, and behind an answer the state behind it.
//! [`KeptServer::open`] gives what the file's records give, or says the first place at which the file is no journal whose records a server of the
//! shard takes. What a file recovers stands in `specs/Kept.antt`, what is refused in `specs/Opening.antt`.
#![tactic(auto)]

mod fault;
mod keeper;
mod kept;
pub mod laws;
mod opening;
mod taking;

pub use fault::{KeptFault, OpenFault};
pub use keeper::Keeper;
pub use kept::KeptServer;
