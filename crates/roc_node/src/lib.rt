//! What running nodes share, servers and coordinators alike (`docs/PROTOCOL.md`, "Running nodes"). It stands on no core.
//!
//! [`judge`] tells a delivery, exactly if the bytes are a datagram with the node's tag, from what is skipped and why
//! (`specs/Judgement.antt`). [`Heard`] keeps where each of sixteen coordinators was last heard, and takes no memory.
//! [`post`] spells messages and addresses them, in order (`specs/Posting.antt`); one that has no spelling, as
//! `has_spelling` of `roc_log` tells, is not sent. `specs/Moves.antt` has the words in which a node's
//! loop says what it received over its link and sent over it, in order, and `specs/Losing.antt` what is said of one that
//! ends early.
//!
//! [`NodeLine`] is a line that a node writes besides those of reports, and [`append_line`] adds its text to one;
//! [`Counts`] is what a server counts, and [`append_end`] adds its last lines. [`Setting`] is what stays the same while a
//! node runs. `specs/NodeEvent.antt` says what a turn of a node takes; `specs/Counts.antt` what each count counts;
//! `specs/NodeLine.antt` the text of the lines (`docs/FORMATS.md`, "Lines of nodes").
#![tactic(auto)]

mod counts;
mod heard;
mod judging;
mod lines;
mod posting;
mod setting;

pub use counts::{Counts, IgnoreCounts, SkipCounts};
pub use heard::Heard;
pub use judging::{Judged, Skip, judge};
pub use lines::{NodeLine, append_end, append_line};
pub use posting::post;
pub use setting::Setting;
