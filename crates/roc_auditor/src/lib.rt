//! The auditor: what is found of the logs of nodes, and its text.
//!
//! `specs/Verdict.antt` says which verdict is right (`IsVerdict`) and which server has no log (`IsGap`), `specs/Taken.antt` what an
//! [`Auditor`] has of the logs that it took one by one (`HasTaken`), and `specs/VerdictText.antt` how verdicts are written. The layers above may rely on
//! [`Auditor`] and [`audit`] to give the right verdict or the least gap, and by [`laws`] on this: over the logs of different nodes there is one
//! verdict, and behind a yes the order vouches for all that the logs tell, whoever made them.
#![tactic(auto)]

mod auditing;
mod auditor;
mod gaps;
pub mod laws;
mod text;
mod verdict;

pub use auditing::audit;
pub use auditor::Auditor;
pub use text::append_verdict;
pub use verdict::{AuditFault, Verdict};
