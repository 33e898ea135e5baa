//! The history of a system, as its callers see it, and the serial order that explains it. Contracts see an [`Order`] as
//! a list that grows by `noted` of `specs/Order.antt`, and a history as a list of [`Entry`], of which
//! `specs/History.antt` reads who was submitted and answered, and what it means that no id is told twice. What it means
//! that an order explains a history is the record `IsSerialWitnessFrom` of `specs/Witness.antt`, for a serial run that
//! begins at any store: each transaction once, only submitted ones, each answered one, the replies of the serial run, and
//! real time. No piece, message or graph occurs in it. `IsSerialWitness` is its instance at the workload's start.
//!
//! The layers above may rely on this: what is in an order stays where it is, and those of the ids noted that are not in
//! it are put at its end; if memory is wanting, the order stays as it was. And on a law: an order that explains a history
//! without its views still does with the views put in, each behind as many transactions as it read of
//! (`specs/Woven.antt`).
#![tactic(auto)]

mod entry;
pub mod laws;
mod order;

pub use entry::Entry;
pub use order::Order;
