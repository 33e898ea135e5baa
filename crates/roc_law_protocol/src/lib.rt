//! The whole protocol of transactions: all nodes and the network, and what comes of each event (`docs/PROTOCOL.md`, "World"). No code
//! stands here but [`Event`], [`Kept`] and [`Seen`].
//!
//! `specs/World.antt` has the world: servers, coordinators, every message ever sent, the history and the serial order.
//! `specs/Happens.antt` has what comes of an event: one event changes one node, by that node's own step.
//! `specs/Run.antt` has steps, `specs/Beginnings.antt` where a run may begin, `specs/Witness.antt` of `roc_audit` orders that explain a history from there
//! on. `specs/Aside.antt` has what a coordinator does aside of transactions, where it uses a sequence for a view, reads for one or answers it: of
//! views this world has no more. `specs/Beside.antt` has runs in which coordinators do such things between events: a crate above projects its
//! runs to these. `specs/Fits.antt` has worlds that fit a plan, `specs/Final.antt` lists as startoks make them,
//! `specs/Quiet.antt` transactions whose messages were all delivered, `specs/Kept.antt` orders that keep what ran,
//! `specs/Forgotten.antt` what servers took and nobody has to wait for, and
//! `specs/PlanAssumptions.antt` what the laws ask of a plan: schemes of the log machine (`HasSchemesFrom`), which every accepted
//! plan has (`roc_law_plans`).
//!
//! The layers above may rely on [`beginnings`]. Of every run of a plan with schemes that begins at any cells, next sequences and watermarks, and in which
//! coordinators do something aside, whatever is lost, repeated or reordered: the serial order explains the history, and so does any order that keeps
//! what ran and real time; what a start leaves out is earlier in it; lists are final; what a startok tells is what its server keeps of the group; servers
//! agree; no server ignores a message, and a coordinator only stale ones; what is quiet is answered; who is answered is decided wherever it has a group;
//! each submitted transaction is pending or answered; no id is submitted twice, and an id has at most one answer, behind its submission; and once each
//! is answered, the cells are those that the serial order leaves, and stay. The world that runs is that of `roc_law_world`, where each of these laws stands for
//! readers: here they are the ground from which they are carried. [`laws`] has what they rest on.
#![tactic(auto)]

pub mod beginnings;
mod event;
pub mod laws;

pub use event::{Event, Kept, Seen};
