//! Whole runs of procedures, the unit of the serial order: what a transaction does if nothing else runs. Contracts cite
//! `after_piece` and `whole_run` of `specs/Run.antt`: statements in order, pieces in program order, and the reply. The
//! start store of a workload and the serial run of a list of calls are in `specs/Serial.antt`.
//!
//! The layers above may rely on this: [`run_whole`] changes the cells and adds to the reply exactly as the whole run
//! does, [`run_piece`] does one piece's part of it from any values of names, and [`start_rows`] has what all cells hold
//! before anything runs; if memory is wanting, a part of a run may be done. By [`laws`] replies are added to, serial
//! runs compose, and whole runs of views leave the store.
#![tactic(auto)]

pub mod laws;
mod piece;
mod whole;

pub use piece::run_piece;
pub use whole::{run_whole, set_init, start_rows};
