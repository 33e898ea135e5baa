//! The outside: input files, sinks for output, a datagram link and child processes, each as a trait.
//!
//! A trait counts its own failures, and a contract sees the counts and, as far as the object tells it, the content: the
//! bytes that a name holds, the names whose reads failed, the bytes that a sink took, by the writes too, the datagrams that are to arrive
//! and those that were sent, what came of all that a link was asked for in order (sends, also those that failed, and receives in one
//! list), the children started and awaited, and what a link had sent when a wait began. `HasCause` (`specs/Cause.antt`) ties each answer that
//! reports a failure to its count: a call that failed was counted (or the count stands at its type's end), and any
//! other left the count as it was. `Adds` and its kin (`specs/Observed.antt`) say what a call adds to the content as far as
//! it is told.
//!
//! The layers above may rely on these clauses for every implementation. They hand a failure on only with its cause, as
//! `Rose` of the count, and speak of content as far as it is told. [`write_all`], [`send_all`] and [`start_all`] are
//! the callers that they share: pieces, datagrams and children in order. `specs/Files.antt`, `Sink.antt`, `Link.antt`
//! and `Spawner.antt` say what the answers of each trait mean.
#![tactic(auto)]

mod files;
mod link;
mod sink;
mod spawner;

pub use files::{Files, Read};
pub use link::datagram::Datagram;
pub use link::{Addr, Arrival, Bound, Link, Sent, send_all};
pub use sink::{Sink, Written, write_all};
pub use spawner::child::Child;
pub use spawner::{AllStarted, ChildWait, Spawner, Started, start_all};
