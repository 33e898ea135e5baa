//! What a shard's server keeps, and what comes of a message there (`docs/PROTOCOL.md`, "Server" to "Ticks of a server"), as plain data. The laws of
//! all runs cite this and no code of a server, so they are proved beside `roc_server`, not behind it.
//!
//! A server keeps a `ServerState` of plain lists, and a `Viewing` of what views need (`specs/State.antt`); at first it is `first_server`
//! (`specs/First.antt`). What comes of a message is a `ServerStep` that `specs/Step.antt` fixes, case by case: starts (`specs/Start.antt`), what runs
//! (`specs/Runs.antt`), lists that are taught (`specs/Lists.antt`), with the watermarks that were heard (`specs/Below.antt`) and what is forgotten
//! (`specs/Forgets.antt`). Which reads are answered behind it is in `specs/Reads.antt`. A server's state is of a plan by `specs/Fits.antt`;
//! `specs/Waiting.antt` has the buffered groups of undecided transactions.
//!
//! Of lists alone: what they link and what is done of them (`specs/Links.antt`), what a message carries (`specs/Carried.antt`), which can be learnt
//! (`specs/Learning.antt`), what new ones decide (`specs/New.antt`), what entries lead to (`specs/Led.antt`), which travel along with a startok
//! (`specs/Piggyback.antt`), who is asked and told (`specs/Asking.antt`), and what a server waits for (`specs/Waits.antt`).
//!
//! The layers above may rely on this: what comes of a message is one ([`laws`]).
#![tactic(auto)]

mod handled;
mod kept_read;
pub mod laws;
mod started;
mod waiting;
mod waits;

pub use handled::Handled;
pub use kept_read::KeptRead;
pub use started::StartedGroup;
pub use waiting::Waiting;
pub use waits::{Asker, OpenFetch};
