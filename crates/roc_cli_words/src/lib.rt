//! The words of the command line: [`ask`] (`docs/FORMATS.md`, "Words").
//!
//! `clap` takes words or refuses them, by its own definition of its refusals (`specs/Program.antt`); values reach it as
//! texts, and are judged here (`specs/Values.antt`). What words ask for stands in `specs/Commands.antt`, and what `ask`
//! answers in `specs/Answer.antt`: a command exactly if the words are those of one, unless memory runs out; `Refused`
//! only if `clap` finds a fault, and then the words ask for no command; `Value` only if this value is the first that is
//! wrong, a log beside a journal behind all numbers, and last a workload to grow to without its partner or beside a
//! journal or a log. Want of memory is never told as a refusal. What the text of a refusal says is told by no clause.
//! That each command, with any of its options, asks for just that, of all names that are not empty and do not begin with a dash and of all
//! numbers of their ranges, and that more than 80 logs are refused, are laws ([`laws`]): which of the words names which file. They are
//! about one order of the words, the names before the options.
//! `specs/Inner/` is of this crate alone.
#![tactic(auto)]

mod answer;
mod command;
pub mod laws;
mod program;
mod value;

pub use answer::{WordsFault, ask};
pub use command::{Ask, Asked, Growth, Later, LogNames, Serving, Submitting};
pub use value::{Part, ValueName};
