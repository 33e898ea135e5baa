//! The world with views, and what holds of its runs (`docs/PROTOCOL.md`, "Views"). No code stands here.
//!
//! A view is a procedure that only reads. It runs beside transactions: its coordinator reads all its groups, round by round, until two rounds
//! in succession read the same versions; no server orders it, and nobody waits for it. `specs/World.antt` is the world of `roc_law_protocol` with
//! what servers and coordinators keep for views, and with the looks: behind how many transactions of the order each round began.
//!
//! Of transactions alone each run is one of theirs ([`laws::runs_are_beside`]). And the order, with each answered view put in where its last
//! round began, is a serial order that explains the whole history ([`beginnings::witness_is_serial`]). All laws of runs are stated once, of runs from any
//! beginning, of which the first world's is one ([`beginnings::first_worlds_begin`]): [`beginnings`] has that one and what reports tell, [`beside`] what
//! else is said of transactions, whatever views there are. Whatever may happen in a world that fits a plan (`specs/Fits.antt`) comes to one thing, which
//! fits it too; and small runs show that what the laws ask for can be met ([`worlds`]).
#![tactic(auto)]

pub mod beginnings;
pub mod beside;
pub mod laws;
pub mod worlds;
