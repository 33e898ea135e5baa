//! Whether a list of transactions is a serial witness of a history: [`is_witness`], the test of the definition `IsSerialWitness` of
//! `roc_audit`. It knows nothing of how the history came about.
//!
//! The layers above may rely on this: the answer is true exactly where the list is a serial witness, for any history whose submissions
//! name procedures of the workload (`NamesProcedures` of `specs/Submissions.antt`), which [`names_procedures`] tells.
#![tactic(auto)]

mod ids;
mod real_time;
mod replies;
mod runs;
mod submissions;
mod witness;

pub use submissions::names_procedures;
pub use witness::is_witness;
