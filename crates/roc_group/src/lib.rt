//! Groups of pieces: the cells that a group uses, and its part of a procedure's run. Contracts cite `group_uses` and
//! `group_run` of `specs/GroupRun.antt`, which run a group's pieces in program order from the arguments and inputs
//! that it is given; `specs/Accesses.antt` has uses of cells and when they conflict.
//!
//! The layers above may rely on this: [`cells`] is what a deferrable group uses, whatever the store holds;
//! [`run_group`] changes the cells, and adds to what is bound, to the reply and to the cells used, exactly as the
//! group's run does; where memory runs out before, nothing is done, and it does not run out where cells and [`Outputs`]
//! have room for one per statement, and [`Outputs`] for the procedure's names (`specs/Outputs.antt`); and [`conflict`] tells exactly
//! whether two lists of uses have a cell in common that one of them writes, without memory.
//!
//! By [`laws`], of accepted plans: what a deferrable group uses follows from what it is given, and the cells of each
//! group are at its place, and groups of views only read. Of all plans: groups whose cells conflict, and that are of no
//! view, may meet by static conflict; and what a group does follows from the cells that it reads, and it changes none but
//! those that it uses as writes.
#![tactic(auto)]

mod access;
pub mod laws;
mod names;
mod outputs;
mod run;
mod uses;

pub use access::{Access, conflict};
pub use outputs::Outputs;
pub use run::run_group;
pub use uses::cells;
