//! The canonical text of a workload: one spelling for each syntax tree.
//!
//! `specs/Canonical.antt` has it, line by line, as `docs/LANGUAGE.md` describes it under "Canonical text". The layers
//! above may rely on this: [`print`] gives exactly the canonical text of the tree of its source, unless memory runs
//! out. Parentheses and comments of the text from which a source was read are not in its tree, nor are lines, so
//! sources whose trees differ in lines alone have one canonical text. If a source was read from a workload text, its
//! canonical text is one of the same tree up to lines (`specs/UpToLines.antt`), if it is within the limit of bytes (the
//! clause `again` and [`laws`]).
#![tactic(auto)]

mod canonical;
mod expression;
pub mod laws;
mod line;

pub use canonical::print;
