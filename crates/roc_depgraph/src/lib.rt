//! What one server knows of dependencies: the lists of predecessors that it was taught, and which transactions are
//! decided by them. Contracts see a [`Deps`] as the list of known lists (`specs/Deps.antt`); chains of edges are the
//! least relation of `specs/Reach.antt`.
//!
//! The layers above may rely on this: no list that is learnt changes one that is known, and [`Deps::learn`] tells an
//! unlike list apart from an equal one (`specs/Learnt.antt`); [`Deps::undo`] takes a list back without memory;
//! [`Deps::closure`] answers `Whole` exactly if a transaction is
//! decided, with it and all its ancestors, and else exactly what is reached and unknown (`specs/Closure.antt`). A
//! [`KnownList`] is also what travels along with messages. [`is_among_rising`] is membership in a list that rises.
#![tactic(auto)]

mod among;
mod closure;
mod deps;
mod known;
mod learnt;

pub use among::is_among_rising;
pub use closure::Closure;
pub use deps::{Deps, visit};
pub use known::KnownList;
pub use learnt::Learnt;
