//! The dependency lists of a server, what it asked for and who asked it, the components that it has taken, and the watermarks of coordinators
//! (`docs/PROTOCOL.md`, "Lists", "Fetches" and "Forgetting"). It knows no plan and no cell, and of groups only which transactions have one here.
//!
//! Contracts see [`ServerLists`] as what is kept, what is decided by it, and the step that is tried, where one is (`specs/ListsNow.antt`). A call
//! tries a step: a shard waits for a list, a watermark is heard, lists are taught, or a transaction is settled. Where there is no memory, it leaves
//! what was kept. [`ServerLists::release`] then keeps the step, and [`ServerLists::rollback`] gives it up: neither takes memory. Behind each call it is
//! known what is decided by what is kept, and what will be by what the step leaves (`AreSound`).
//!
//! The components that were taken, with the watermarks, are of `roc_server_taken`.
#![tactic(auto)]

mod finding;
mod keeping;
mod missing;
mod parts;
mod preparing;
mod server_lists;
mod settling;
mod teaching;
mod trial;
mod trying;

pub use server_lists::ServerLists;
