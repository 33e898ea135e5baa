//! Generated load: a workload and a schedule for it, made out of a number.
//!
//! [`generate`] gives exactly the two texts of `specs/WorkloadText.antt` and `specs/ScheduleText.antt`, unless memory
//! runs out; what the schedule asks for stands in `specs/Drawn.antt`, and how its numbers are drawn in
//! `specs/Draws.antt` (`docs/FORMATS.md`, "Generated load"). `specs/SummaryText.antt` has what the run of a load comes
//! to, as two lines. The layers above may rely on what [`laws`] says of these texts: the workload is canonical text and
//! has a plan, and the schedule is one of it, whose submissions are calls that fit (`specs/Load.antt`).
#![tactic(auto)]

mod draws;
mod generator;
pub mod laws;
mod schedule;
mod workload;

pub use generator::generate;
