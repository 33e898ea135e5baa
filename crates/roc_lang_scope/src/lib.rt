//! The test of scope: the first fault of the names of a workload's tree (`docs/LANGUAGE.md`, "Scope").
//!
//! `specs/Scope.antt` of `roc_lang` lists the faults of a tree in the order of the text. The layers above may rely on
//! this: [`check_scope`] answers `Ok` exactly if the list is empty, and its fault is the first of the list, with its
//! kind, name and line (`IsFirst` of `specs/Fault.antt`); memory is taken for that name alone. Faults print as
//! `specs/FaultText.antt` says. `specs/Inner/` is of this crate alone.
#![tactic(auto)]

mod before;
mod fault;
mod misuse;
mod pieces;
mod tree;

pub use fault::{ScopeFault, ScopeWhat};
pub use tree::check_scope;
