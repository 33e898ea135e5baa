//! The world of two files, and what holds of its runs (`docs/PROTOCOL.md`, "Growth"). No code stands here but [`Event`] and [`Seen`].
//!
//! Each node has a file of its own: the first one, until it has switched, and then the second (`roc_grown`). `specs/World.antt` is the world of `roc_law_world`
//! with such nodes, and with the file of each message, which is that of its sender as it was sent; `specs/Happens.antt` is what comes of an event, `specs/Run.antt`
//! has runs, and `specs/Fits.antt` worlds that fit. Whatever may happen in a world that fits comes to one thing, which fits too; and where no second file comes, a run
//! is one of `roc_law_world` (`specs/Without.antt`), so that what is said there of runs is said of it ([`worlds`]).
//!
//! And each run of two files is two of one, side by side ([`epochs`]): `specs/Epochs.antt` says how, and `specs/Told.antt` what nodes know by what they tell one another
//! between the files. So what holds of the two holds of it ([`laws`], [`quiet`]), but for what comes of a message whose file is not its receiver's ([`refusals`]).
#![tactic(auto)]

mod both;
pub mod epochs;
mod event;
pub mod laws;
pub mod quiet;
pub mod refusals;
pub mod worlds;

pub use event::{Event, Seen};
