//! The groups that have started on a shard's server, without its dependency lists: what is found of them, what starts, what runs, and what is told of it
//! (`docs/PROTOCOL.md`, "Server").
//!
//! Contracts see [`StartedGroups`] as the list of the groups in the order of their arrival, with how many more find room (`specs/Entered.antt`). Beside
//! it stands an `Index` of `roc_server_index`: at each cell the references of the undecided groups that use it (`IsIndexOf` of `specs/Indexed.antt`).
//!
//! The layers above may rely on this: [`entries`] gives exactly the entries of a group that would start, whichever transactions the index says are
//! decided, and looks at no more started groups than there are pairs of a cell that it uses and an undecided group of its class that uses that cell.
//! Whatever wants memory leaves the groups that were kept.
//!
//! [`ServerGroups`] has the groups with their index, and has one step tried at a time: what is decided runs, or a group is to start, with room taken for
//! it. Contracts see the groups before the step, those with what ran, and the group that starts (`specs/GroupsNow.antt`). [`ServerGroups::release`]
//! keeps what was tried, with what is newly decided and what is forgotten, and [`ServerGroups::rollback`] gives it up. Neither takes memory, and the index
//! stays right for the groups and what is decided.
#![tactic(auto)]

mod begun;
mod commitoks;
mod group_key;
mod groups;
mod indexed;
mod lent_groups;
mod looks;
mod ran;
mod runs;
mod server_groups;
mod started_groups;
mod uncovered;

pub use begun::{Begun, begin_group, is_immediate};
pub use commitoks::{send_commitok, send_commitoks};
pub use groups::{differs, find_group, is_here};
pub use looks::{Starting, edges_for, entries};
pub use ran::note_group;
pub use server_groups::ServerGroups;
pub use started_groups::StartedGroups;
