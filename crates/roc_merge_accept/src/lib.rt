//! Which groups the protocol may rely on, and what a test of that or a merging of pieces asks of a program.
//!
//! [`are_accepted`] tells exactly whether groups are accepted, [`feeds`] whether a piece of a procedure uses a name
//! that another binds, [`piece_uses`] whether a name occurs in a piece, and [`are_co_located`] whether the places of
//! two pieces are one tree. Their words stand in `roc_merge_groups` (`specs/Accepted.antt`, `Flow.antt` and `Core.antt`
//! there). No call takes memory. Only merging and the making of plans stand on this crate, so that no server waits for
//! its proof.
#![tactic(auto)]

mod acceptance;
mod circle;
mod flow;
mod partition;

pub use acceptance::are_accepted;
pub use flow::{are_co_located, feeds, piece_uses};
