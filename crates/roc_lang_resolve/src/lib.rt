//! From workload texts to programs: what the names of a tree mean.
//!
//! [`resolve`] gives the program that `specs/Resolve.antt` reads out of the tree of a source, if the tree is in scope,
//! and else the first fault of scope, unless memory runs out. The program of each tree in scope within the limits is
//! well formed ([`laws`]). This stands above the program itself, `roc_program`, so that what speaks of programs alone
//! stands on neither names nor scope.
#![tactic(auto)]

pub mod laws;
mod names;
mod tree;

pub use tree::resolve;
