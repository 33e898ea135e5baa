//! What running nodes share that may go over to a grown workload, servers and coordinators alike (`docs/PROTOCOL.md`, "Growth"). It stands on no core, and
//! beside `roc_node`, whose addresses, counts, lines and moves of a link are theirs too.
//!
//! [`GrownSetting`] is what stays the same while such a node runs, before and behind the moment when it goes over; what it is told of the node itself is
//! whether it has switched. [`grown_judge`] tells a delivery, and of which file its message is, from what is skipped and why: exactly which bytes are one is said
//! in `specs/Judgement.antt`. [`grown_post`] spells messages, each under the tag of its own file, and addresses them, in order (`specs/Posting.antt`).
//!
//! The layers above may rely on these definitions, and on this: what is a delivery to a node is of the file that the node runs, or of neither, so its core
//! does not skip it; and a message that is sent is, at a node that has switched as far as its sender had, a delivery ([`laws`]).
#![tactic(auto)]

mod judging;
pub mod laws;
mod posting;
mod setting;

pub use judging::{GrownJudged, grown_judge};
pub use posting::grown_post;
pub use setting::GrownSetting;
