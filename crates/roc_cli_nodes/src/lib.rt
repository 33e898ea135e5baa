//! The commands with nodes: [`launch`] reads their files and runs what they ask for, a server, a coordinator, stops for
//! servers, or all of these. [`needs_nodes`] tells which commands these are. Nothing here knows a world or a replay.
//!
//! What is said of the bytes that files hold, of the reads that failed, of what standard output takes, and of what the
//! link, the children and the book did holds as far as these are told; the counts of faults hold always, and each rises exactly
//! at the fault that blames it. A fault of the files leaves link, children and book as they were. The definitions stand in
//! `specs/`: `Call.antt` (what is seen of a call of the program), `Words.antt` (the words of each command, and the
//! files that they name), `Nodes.antt` (how the loop of each command with nodes ended) and `Ends.antt` (which of these
//! comes with which fault). `specs/Inner/` is of this crate alone.
#![tactic(auto)]

mod launching;
mod running;
mod serving;

pub use launching::{launch, needs_nodes};
