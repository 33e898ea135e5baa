//! Programs: what a workload text means once its names are resolved.
//!
//! Contracts see a [`Workload`] as a program of `specs/Program.antt` (tables, init lines, procedures of pieces of
//! statements, with numbers for names), and each is well formed (`IsProgram` of `specs/WellFormed.antt`): its numbers
//! are within the limits of the language, and its pieces use names that are in scope. Which program a text means is for
//! `roc_lang_resolve` to say.
//!
//! The layers above may rely on this: [`Expression::value`] is the value of `specs/Values.antt`, where `+ - *` wrap
//! modulo 2^64; [`Expression::is_same`] tells exactly whether two expressions are one tree, and the `is_same` of the other parts
//! whether two are of one text, in which only lines, spaces, comments and parentheses may differ; pieces have the numbers of
//! `specs/Pieces.antt`; and [`conflict`] is exactly the static conflict of `specs/Conflict.antt`, in which pieces of
//! views are never: a procedure is a view ([`is_view`]) if its text says so, and then it only reads. `specs/Names.antt`
//! has what a piece uses and binds.
#![tactic(auto)]

mod parts;
mod piece_id;
mod pieces;
mod same;
mod static_conflict;
mod value;
mod workload;

pub use parts::{Access, Expression, Init, Piece, Procedure, Statement, Table};
pub use piece_id::PieceId;
pub use pieces::{all_pieces, is_declared_now, is_view, piece_count, procedure_count};
pub use static_conflict::{conflict, exposed};
pub use workload::Workload;
