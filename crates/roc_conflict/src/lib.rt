//! Which pieces run at the start, and which of these are contended: the promotion of ROCOCO (OSDI 2014), over the
//! conflicts that transaction chopping (TODS 1995) sees by table and column (`docs/LANGUAGE.md`, "Conflicts").
//!
//! The immediate pieces are the least set of `specs/Immediate.antt`: those declared `now`, and each piece in conflict
//! with an immediate one. Contracts see [`Classes`] as a list for each procedure, of which `specs/Classes.antt` reads
//! whether a piece is immediate; a piece that is not there is not. The layers above may rely on this: [`promote`] finds
//! exactly that set; [`is_least`] tells exactly whether classes are it; [`contended`] holds exactly if a piece is
//! immediate and conflicts with a piece of the program, itself included (`specs/Contended.antt`). The last two take no
//! memory.
//!
//! [`Columns`] gather which columns pieces access and write (`specs/Columns.antt`), so that many pieces are tested each in
//! the time of its own statements: who meets the columns of a piece is exactly who is in conflict with it, and who meets
//! those of all is exactly who has a conflict.
//!
//! By [`laws`] the set is the least one closed under conflict, conflict is symmetric, each conflict joins two immediate
//! pieces or two deferrable ones, and pieces of views meet nobody.
#![tactic(auto)]

mod classes;
mod columns;
mod contention;
pub mod laws;
mod marks;
mod promotion;

pub use classes::Classes;
pub use columns::Columns;
pub use contention::contended;
pub use promotion::{is_least, promote};
