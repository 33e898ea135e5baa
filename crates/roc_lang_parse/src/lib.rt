//! `parse`: the syntax tree of a workload text, or its first fault.
//!
//! The contract of [`parse`] cites `IsWorkloadText` and `IsFirstFault` of `specs/Fault.antt`. They stand on the
//! definitions of `roc_lang` (`Tokens`, `Grammar`) and on `specs/Lexed.antt`, which says how far a text has tokens. The
//! layers above may rely on this: a source is given exactly if the bytes are a workload text of it within the limits,
//! unless memory runs out, and a fault is the first one from the left, with its kind and its line (`docs/LANGUAGE.md`,
//! "Faults"). Scope is not asked here. That each text has one tree or one first fault, and that no text
//! reaches the limit of the integers in the brackets of an id and no fault comes of it, are laws ([`laws`]).
//!
//! `specs/Inner/` is of this crate alone. The proofs go rule by rule: a reader is `Exact` for a rule
//! (`proofs/Exact.antt`) if it takes exactly the rule's sentences and stops where no sentence goes on, and readers that
//! are put together are exact if their parts are.
#![tactic(auto)]

mod declaration;
mod deep;
mod expression;
pub mod laws;
mod lexer;
mod number;
mod parser;
mod procedure;
mod refusal;
mod statement;
mod terminal;
mod token;

pub use parser::parse;
