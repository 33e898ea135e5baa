//! The lines that the program writes, and the exact text of each.
//!
//! A [`ReportLine`] and a [`CheckLine`], a line that `check` writes, lend what they show. `specs/Line.antt` has lines
//! as plain data, `specs/Shown.antt` what a line of the code is of these, and `specs/Text.antt` and
//! `specs/Standing.antt` the text of each line, as `docs/FORMATS.md` describes it ("Report", "Text of check",
//! "Refusals"). The layers above may rely on this: [`append`] and [`append_check`] add exactly the text of a line, or
//! leave what is there as it was if memory is wanting; the numbers of each line of a report have at most 64 bits. By
//! [`laws`] a text is that of at most one list of a report's lines (`specs/ReportLine.antt`), if names tell the
//! program's parts apart, as they do in the program of a tree in scope whose names are words (`specs/Names.antt`), as
//! those of each text are.
#![tactic(auto)]

mod check;
pub mod laws;
mod line;
mod small;
mod spelling;
mod text;

pub use check::append_check;
pub use line::{CheckLine, ReportLine, Standing};
pub use text::append;
