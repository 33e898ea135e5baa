//! The language of workloads: what a text is, its syntax tree, and its faults.
//!
//! `specs/Tokens.antt` and `Grammar.antt` say which bytes are a workload text of a tree, `specs/Scope.antt` what is
//! wrong with the names of a tree, and `specs/Limits.antt` how large a tree may be; in words all of these stand in
//! `docs/LANGUAGE.md`, and each number once, in the module [`limits`]. Contracts see a [`Source`] as the tree of
//! `specs/Syntax.antt` and `Tree.antt`, and each is within the limits, as the tree of each text is ([`laws`]). A
//! [`LangError`] prints as `specs/FaultText.antt` says.
//!
//! `roc_lang_parse` reads texts, `roc_lang_print` writes them, and `roc_lang_scope` tests their names. `specs/Inner/` is of this crate
//! alone.
#![tactic(auto)]

mod fault;
pub mod laws;
pub mod limits;
mod source;
mod syntax;

pub use fault::{LangError, What};
pub use source::Source;
pub use syntax::{Access, Expression, Init, Name, Piece, Procedure, Statement, Table};
