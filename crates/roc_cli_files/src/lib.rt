//! What the files that the program's words name hold: read and judged, each before the next is read, and the faults
//! that are found, with the status and the line of each. A workload is printed and checked here; what runs it stands
//! above.
//!
//! What is said of the bytes that files hold, of the reads that failed and of what the sinks take holds as far as these
//! are told; the counts of faults hold always: a count rises exactly at the fault that blames it, and the names whose
//! reads failed grow by the one that the fault names. [`bytes_of`], [`plan_of`], [`tagged_of`] and [`nodes_of`] give what one file, a
//! workload's file, the same with its tag, and the files of a command with nodes hold, or the first reason why they do not; [`next_of`] gives the workload that
//! another one is to grow to, or the first reason why there is none; [`logs_of`] gives
//! an auditor that has taken the logs which files hold, or the first reason why they hold none; [`print_file`] and
//! [`check_file`] have standard output take a workload's canonical text and the text of its check, or the line that
//! refuses it; [`Fault::tell`] writes a fault's line and answers its status.
//!
//! The definitions stand in `specs/`: `Held.antt` (what a named file holds), `Requests.antt` (request files that fit a
//! program), `Input.antt` and `Listed.antt` (what comes of reading one file), `NodeNames.antt` (of all files of a
//! command with nodes, and of a workload to grow to), `Fault.antt` and `Says.antt` (the status of each fault, and its line on standard error).
//! `specs/Inner/` is of this crate alone.
#![tactic(auto)]

mod check;
mod fault;
mod grown;
mod input;
mod listed;
mod logs;
mod nodes;
mod requests;
mod tagged;
mod text;

pub use check::check_file;
pub use fault::Fault;
pub use grown::next_of;
pub use input::{bytes_of, plan_of};
pub use listed::MOST_LISTED_BYTES;
pub use logs::{MOST_LOG_BYTES, logs_of};
pub use nodes::{NodeNames, Nodes, nodes_of};
pub use tagged::{Tagged, tagged_of};
pub use text::print_file;
