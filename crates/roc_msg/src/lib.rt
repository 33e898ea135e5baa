//! The messages between coordinators and servers, and why a node ignores a message.
//!
//! A [`Msg`] is data: contracts see its lists as lists, and `specs/Msg.antt` reads its id and its kind. Its [`Facts`]
//! are known lists that travel along; they rise strictly by id, whatever the message (`specs/Facts.antt`). Copies of a message share its
//! lists, and two messages are equal exactly if they are one (`specs/MsgEquality.antt`).
//! [`CellVersions`] are a list of numbers, of what a read-only transaction has read. A [`Reason`] prints as
//! `specs/Reason.antt` says. `specs/InPlace.antt` has lists that rise with one more put into its place.
//!
//! An [`Outbox`] collects what a node sends in one event, the transactions that it decides in it, and the accesses of
//! the groups that run in it (`specs/Outbox.antt`). Each call adds at the end, leaves what is held if it finds no
//! memory, and cannot fail while there is room, which [`Outbox::reserve`] takes ahead. [`Outbox::append`] uses room up for messages alone (`KeepsRoom`).
#![tactic(auto)]

mod facts;
mod msg;
mod outbox;
mod reason;
mod versions;

pub use facts::{Facts, MOST_FACT_EDGES, MOST_FACTS};
pub use msg::{Envelope, Msg};
pub use outbox::{Outbox, Outgoing, Ran};
pub use reason::{NodeFault, Reason};
pub use versions::CellVersions;
