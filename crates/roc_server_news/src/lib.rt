//! What a server does with dependency lists that come and go in messages: what of lists that a message carries is new, who is told of new ones, what is
//! asked for, and which lists travel along with a startok (`docs/PROTOCOL.md`, "Lists" and "Fetches"). It knows no plan, no group and no cell.
//!
//! Each call gives exactly what its definition says, or finds no memory. Of lists that come: [`news_of_commit`] and [`news_of_known`] give those
//! of transactions of which none is known, and [`commit_differs`] and [`is_unlike`] tell whether another list is known (`specs/Carried.antt` of
//! `roc_step`). Of who asks: [`tell_all`], [`send_known`], [`all_edges`], [`wait_for`] and [`send_fetches`] tell lists, note who waits for what, and ask
//! (`specs/Asking.antt` of `roc_step`). [`facts_for`] gives the known lists that travel along (`specs/Piggyback.antt` of `roc_step`).
//!
//! Where a call finds no memory, [`send_known`] alone promises that the outbox stays, and of who waits nothing is promised where there was no room
//! ahead.
#![tactic(auto)]

mod askers;
mod asks;
mod fetches;
mod news;
mod told;
mod unlike;

pub use askers::tell_all;
pub use asks::{all_edges, wait_for};
pub use fetches::{send_fetches, send_known};
pub use news::{news_of_commit, news_of_known};
pub use told::facts_for;
pub use unlike::{commit_differs, is_unlike};
