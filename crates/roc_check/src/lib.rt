//! The check of a workload: from its text to the plan that the protocol may rely on, or to the reason why there is
//! none.
//!
//! [`check`] parses, resolves, promotes and merges, in this order; `specs/Checked.antt` says what each answer means:
//! the plan of the text, or the fault of the first step that finds one. A refusal names the first pieces that cannot be
//! merged and shows the shortest cycle through two of them (`docs/CHECKER.md`), and hands back the workload, which has
//! the names. [`check_text`] writes what is known of a plan, line by line (`specs/Lines.antt`).
//!
//! The layers above may rely on this: a plan comes exactly of a text in scope whose pieces may be merged, unless memory
//! runs out, and is accepted, as each plan of a text is; a text has at most one plan and one text of `check`, and a program at
//! most one line that refuses it, and no such line if it has a plan; a well-formed program has one of the two; names tell
//! the parts of a text's program apart ([`laws`]).
#![tactic(auto)]

mod checking;
mod fault;
pub mod laws;
mod piece_sets;
mod text;
mod users;

pub use checking::check;
pub use fault::CheckFault;
pub use text::check_text;
