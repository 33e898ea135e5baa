//! Making plans: the groups of a workload are judged, and what a plan keeps of each is built.
//!
//! The layers above may rely on this: [`make_plan`] gives the plan of a workload with its classes and groups, or finds
//! no memory for it; `Unfit` comes exactly if the groups are not accepted or the classes are not those of the
//! workload's immediate pieces, whatever memory there is. The words of its contract stand in `roc_plan` and
//! `roc_merge_groups`. Only the check of a workload makes plans: servers and coordinators stand on `roc_plan` alone.
#![tactic(auto)]

mod build;
mod fault;
mod making;
mod names;
mod replies;

pub use fault::PlanFault;
pub use making::make_plan;
