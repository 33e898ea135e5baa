//! Running a coordinator that submits requests, goes over to a grown workload and submits later requests: the loop that leads the datagrams of a link through
//! a coordinator's own core, over any link and any sink (`docs/PROTOCOL.md`, "Growth"). It stands on no server, and keeps no log.
//!
//! [`submit_growing`] binds any free port and runs it, to the end that [`SubmitEnd`] tells; [`submit_growing_turns`] is what it does over a link that is bound.
//! Their contracts cite `specs/GrownEnd.antt`, which says for each end what the link took and gave, and what the sink took; and
//! `specs/GrownPieces.antt`, which says what goes out in one write. Both rest on the node's run
//! (`specs/GrownCoordRun.antt`): a fold of one event after another, a datagram that came or silence, whose steps are those of the core of `roc_grown`. Before
//! each event stands, in this order, the drain, once all of the first requests are submitted and answered; the submissions that are left of them; and those of
//! the later ones, once the coordinator has switched and none of the first is left.
//!
//! The layers above may rely on these definitions, and on this: no request is lost. One that the core refuses is left, and at the end `Done` each request of
//! both lists has its id, in order, and its answer, once. A later request is submitted only by a coordinator that has switched. What a node sends is of the file
//! that it runs, as is what it takes (`roc_grown_node`). The end is never `BookFault`; of faults, of want of memory, of what the link took and of what is
//! told, the same holds as of `roc_node_submit`, whose counts and lines at the end are these too.
//!
//! `specs/Inner/` is of this crate alone.
#![tactic(auto)]

mod coord_node;
mod events;
mod submitting;
mod turns;

pub use roc_node_submit::SubmitEnd;
pub use submitting::{submit_growing, submit_growing_turns};
