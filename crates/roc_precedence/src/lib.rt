//! Orders that keep a relation among transactions, or the cycle that none keeps. Nothing here knows of histories, messages or runs.
//!
//! `specs/Orders.antt` has the least order (`IsLeastOrder`): each member stands behind all that come before it, and is the least of
//! those that could stand at its place. `specs/Cycles.antt` has cycles, as lists of ids, and the least cycle (`IsLeastCycle`). The
//! layers above may rely on this: of any pairs [`least_order`] gives that order exactly where no members are a cycle,
//! [`least_cycle`] the least cycle exactly where some are, and [`on_circles`] who is on a cycle; and by [`laws`] relations with
//! the same chains have the same order, so that pairs may be left out that others lead through, and a relation has at most one least cycle.
#![tactic(auto)]

mod circles;
mod cycle;
pub mod laws;
mod lists;
mod ordered;
mod pair;
mod rounds;

pub use circles::on_circles;
pub use cycle::least_cycle;
pub use ordered::least_order;
pub use pair::Pair;
