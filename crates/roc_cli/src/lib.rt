//! The program's words, and what it does for them: [`run`].
//!
//! The program above may rely on the contract of `run` alone: on `Answers` (`specs/Status.antt`, a record that is to be
//! read from the top), which says what each status tells of the call, and on the counts of faults. What it says of the
//! bytes that files hold, of the reads that failed, and of what standard output and standard error take holds as far as
//! these are told; the counts hold always. The definitions stand in `specs/`: `Done.antt` (what status 0 says of each
//! command without nodes, the headline among it, also where a workload grows, and what status 1 says), `Audited.antt` (what an audit is of, what a yes
//! says, and what status 12 says), `Refused.antt` (words and files that are refused), `Fit.antt` (calls that are done),
//! `Honest.antt` (audits of logs that are explained), `Unfit.antt` (files for which none is done) and `Stopped.antt` (a
//! failed read, want of memory, a failed write); what a named file holds (`Held.antt`) and the line on standard error
//! (`Says.antt`) stand in `roc_cli_files`, which reads the files; what is seen of a call (`Call.antt`), `Words.antt` and
//! what comes of commands with nodes (`Nodes.antt`) stand in `roc_cli_nodes`, which runs these. `specs/Inner/` is of this
//! crate alone.
#![tactic(auto)]

mod auditing;
mod command;
mod fit;
mod generated;
mod replaying;
mod unseen;

pub use command::run;
