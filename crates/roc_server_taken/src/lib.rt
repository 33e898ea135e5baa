//! The components that a server has taken and not forgotten, and the watermarks of coordinators, by which a component is over (`docs/PROTOCOL.md`,
//! "Forgetting").
//!
//! Contracts see [`Taken`] as the components in the order in which they were taken, with how many more find room (`specs/Components.antt`), and
//! [`Marks`] as the watermarks of `roc_step`. Which components are over is found by coordinator and sequence: each stands under one of its transactions, and
//! behind [`Taken::forget`] under one that is not ended. None is looked at that has no ended transaction ([`over_counted`]).
#![tactic(auto)]

mod components;
mod lent_components;
mod marks;
mod room;
mod standing;
mod taken;

pub use marks::Marks;
pub use taken::{Taken, members_of, over_among, over_counted, over_within};
