//! Running a coordinator that submits requests: the loop that leads the datagrams of a link through a coordinator's own
//! core, over any link and any sink. It stands on no server.
//!
//! [`submit_all`] binds any free port and runs it, to the end that [`SubmitEnd`] tells; [`submit_turns`] is what it
//! does over a link that is bound. Their contracts cite `specs/SubmitEnd.antt`, which says for each end what the link
//! took and gave, what the sink took, and what a log has, and `specs/Pieces.antt`, which says what goes out in one write. Both rest on the node's
//! run: a fold of one event after another, a datagram that came or silence (`specs/CoordRun.antt`), whose steps are those of the core. No request
//! is lost: one that the core refuses is left, and at the end `Done` each has its id and its answer (`specs/EachAnswered.antt`). The layers above may rely on these
//! definitions; of faults, of what the link took and of what is told, the same holds as of `serve` of `roc_node_serve`.
//!
//! Where a log is kept, the book is opened and has the first line before the bind. What is due then goes into it in one piece, for all
//! submissions before a turn and for each event, before anything of it is written or sent: so the log is that of the node as far as it got,
//! at want of memory too, and ends within a piece only where the book failed. Without a log the book is not touched.
//!
//! `specs/Inner/` is of this crate alone.
#![tactic(auto)]

mod coord_node;
mod coord_turns;
mod ends;
mod logging;
mod submitting;

pub use ends::SubmitEnd;
pub use submitting::{submit_all, submit_turns};
