//! A view (a read-only transaction) at its coordinator, which reads all its groups in rounds until two rounds, one behind the other, found
//! the same versions, as `docs/PROTOCOL.md` says under "Views".
//!
//! Contracts see a [`View`] as the record of its fields, and they are exact for every plan that it is a view of (`IsViewOf`,
//! `specs/Fits.antt`). Of `specs/Round.antt`, [`View::begin`] is `first_round`, [`View::send_reads`] sends `reads_of` and
//! [`View::send_again`] `reads_again`; [`View::readok_refusal`] is the first reason not to take an answer, and [`View::take`] is
//! `with_readok`; [`View::round`] is `round_of`, which ends with the reply of a round that found the versions of the round before, none of
//! which may stand for more; and [`View::go_on`] is `next_round`, with its reads.
//!
//! The layers above may rely on this: want of memory leaves a view as it was, and what was taken last can be taken back. `specs/Inner/`
//! is of this crate alone.
#![tactic(auto)]

mod reads;
mod rounds;
mod view;

pub use view::{Round, TakenRead, View};
