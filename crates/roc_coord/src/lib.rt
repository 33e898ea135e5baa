//! A coordinator: it submits transactions, starts their groups, has them committed, and answers them; and it submits views (read-only
//! transactions), which read in rounds; as `docs/PROTOCOL.md` says under "Coordinator".
//!
//! Contracts see a [`Coord`] as a `CoordState` (`specs/State.antt`). [`Coord::submit`] is `after_submit`
//! (`specs/Submit.antt`: the first reason to refuse, else the new transaction and its starts, or the new view and the reads of its first
//! round), [`Coord::handle`] is `after_message` (`specs/Step.antt`, on `specs/Starts.antt` and `specs/Commits.antt`: which starts can be
//! sent, the commits once every group has started, and the reply; and on `specs/Round.antt` of `roc_readonly` for views) and
//! [`Coord::tick`] sends `tick_sends` (`specs/Tick.antt`), for every plan and every message. A tick and some answers tell each shard the
//! watermark (`specs/Marks.antt`).
//!
//! The layers above may rely on this: a refused submission and an ignored message change nothing and send nothing; a
//! tick changes nothing; want of memory leaves the coordinator and the outbox as they were, but for their room, so that
//! the same call may be made again; and what it holds stays of the plan that it is called with (`CoordFits`,
//! `specs/Fits.antt`). [`Coord::unanswered`] lists the ids without a reply, of transactions and views, rising; [`Coord::next_id`] is
//! the id that is given next; and [`Coord::renew`] keeps that and drops all else (`specs/Renewed.antt`). While a coordinator handles a message,
//! room that was taken ahead in the outbox is lost to messages alone (`KeepsRoom` of `roc_msg`). `specs/Inner/` is of this crate alone.
#![tactic(auto)]

mod again;
mod commits;
mod coord;
mod facts;
mod handled;
mod ids;
mod marks;
mod pending;
mod reply;
mod starts;
mod take;
mod transaction;
mod views;

pub use coord::Coord;
pub use handled::{Handled, SubmitFault};
pub use transaction::{SentStart, TakenCommit, TakenStart, Transaction};
