//! The fold of a node's own step over the lines of its log: what the log tells, or the first of its lines that does not fit.
//!
//! `specs/Fold.antt` says which line may stand next and what comes of it (`TakesLine`), by the steps of `roc_step` and `roc_coord`;
//! `specs/Folded.antt` what a log that folds tells (`IsFolded`), and the first line of one that does not (`IsMismatchAt`). What its submissions
//! and answers are is read without any core (`specs/Told.antt`). The layers above may rely on [`fold_log`], which answers one of the two
//! (`IsFound`), and on [`laws`]: a log has one such answer at most, and one that folds tells each id once. Nothing is said of who made a log.
//! In words: `docs/PROTOCOL.md`, "Auditing". `specs/Inner/` is of this crate alone.
#![tactic(auto)]

mod coordinating;
mod due;
mod fold;
pub mod laws;
mod serving;
mod told;

pub use fold::fold_log;
