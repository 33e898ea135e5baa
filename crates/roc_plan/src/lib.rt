//! Plans: workloads whose pieces are put into the groups that servers and coordinators run.
//!
//! Contracts see a [`Plan`] as a program with its groups, as `specs/Groups.antt` has it, and each reader answers what
//! that file says of the plan, without memory. [`Plan::from_outlines`] asks that the outlines are those of an accepted
//! plan (`specs/Outlines.antt`), so each plan is one that the layers above may rely on (`IsAccepted` of
//! `specs/Accepted.antt`). `make_plan` of `roc_plan_make` makes plans.
//!
//! By [`laws`], of each accepted plan: each procedure has a group, and a group is immediate exactly if its pieces are;
//! what a group takes comes from other groups of its procedure, which are immediate and bind it; the groups of a
//! procedure can run one after another, each behind those that it takes values from (`specs/Turns.antt`); groups that
//! may meet are of one class; of one procedure at most one group is immediate and may meet any, and two groups, one of
//! them immediate, never meet; and each piece of a view is a group by itself, which takes nothing and meets nobody.
#![tactic(auto)]

mod group;
pub mod laws;
mod outline;
mod place;
mod plan;

pub use group::{Class, Input, Known};
pub use outline::Outline;
pub use place::set_values;
pub use plan::Plan;
