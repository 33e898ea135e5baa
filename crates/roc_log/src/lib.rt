//! Logs of nodes: the lines of a log, their text, [`parse_log`], which reads them, and calls that write them one by one.
//!
//! A log is what came to a node and what its core gave, line by line: `specs/LogLine.antt` says how lines are written, and
//! `specs/Reading.antt` which lines may stand in a log. Bytes are a log of at most one node and one list of lines, or have
//! one first fault, and not both; and what is written of a log is read as it ([`laws`]). [`append_in`] and its like add the text of
//! a line each, and [`append_outs`] those of messages (`specs/Sent.antt`), of which only those that have a spelling have a line, as
//! [`has_spelling`] tells (`specs/Spellable.antt`). Whether the lines are what the node's core gives is not judged here. In words: `docs/FORMATS.md`, "Logs". `specs/Inner/` is of this crate alone.
#![tactic(auto)]

mod call;
mod datagram;
mod fault;
pub mod laws;
mod line;
mod log;
mod node_line;
mod parts;
mod reading;
mod spellable;
mod text;

pub use fault::{LogFault, What};
pub use line::{Log, LogLine};
pub use log::parse_log;
pub use spellable::has_spelling;
pub use text::{append_answer, append_in, append_node, append_outs, append_submit, append_tick};
