//! The order in which transactions that precede one another are taken.
//!
//! [`order`] is component order (`specs/Components.antt`): strongly connected components one after another as they
//! become ready, those with lower ids first, and inside a component immediate predecessors first. The layers above may
//! rely on this: the answer is an order that the rule names for the set, and by [`laws`] there is exactly one, for any
//! known lists, and it is the same wherever the same edges among the set are known. [`taken_components`] gives the
//! components one by one, in that order (`AreTaken`), [`components`] the same with each rising (`AreTakenRising`), of
//! which there are one too, and [`rising`] the ids of a list, rising and each once.
//!
//! The components are found by one search back along entries (Gabow, *Path-based depth-first search for strong and
//! biconnected components*, 2000), in time near the number of ids and of entries among them, which no clause says.
#![tactic(auto)]

mod before;
mod component_order;
pub mod laws;
mod queue;
mod search;
mod set_components;
mod taken;
mod turn;
mod within;

pub use component_order::{order, taken_components};
pub use set_components::components;
pub use within::rising;
