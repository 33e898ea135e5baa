//! The world as code: all nodes, each of its own file, and the network. [`World::new`] is the first world, and [`World::step`] is exactly one event, as
//! `Happens` of `roc_growth` says what comes of it: one event changes one node, by that node's own step, and what the node sends is of the file that it
//! has behind the step. It asks for a world that fits the plans of its nodes' files (`FitsGrown`) and an event that may happen in it, and the new world
//! fits again. So what the laws of `roc_growth` say of every run holds of each world that it steps through; and where no other file comes, these are
//! the worlds of `roc_law_world`.
//!
//! The readers `sent`, `files`, `undelivered`, `history` and `order` take no memory; `witness` is the order with the answered views put in, and `cells`
//! and `unanswered` list what a report needs of the nodes (`specs/Reads.antt`). If memory is wanting in a step, nothing is promised of the world, which
//! is to be thrown away. `specs/Inner/` is of this crate alone.
#![tactic(auto)]

mod happen;
mod looks;
mod network;
mod nodes;
mod notes;
mod parts;
mod reads;
mod witness;
mod world;

pub use roc_growth::{Event, Seen};
pub use roc_law_protocol::Kept;
pub use world::World;
