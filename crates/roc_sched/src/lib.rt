//! Schedules and request files: the lines of a text, and [`parse_schedule`] and [`parse_requests`], which read them. No
//! plan is known here: each line keeps its number and the procedure's name as written.
//!
//! Their contracts cite `IsSchedule`, `AreRequests` and the first fault of other bytes, of `specs/Schedule.antt`: bytes
//! are taken exactly if they are such a text, unless memory runs out, and else their first fault is named. What a line
//! asks for stands in `specs/Acts.antt`, on `specs/Lines.antt`, `Words.antt` and `Numbers.antt`, and in words in
//! `docs/FORMATS.md` ("Schedule" and "Requests"). A caller tells which of the further forms it takes ([`Forms`]): any other line of these
//! is none. By [`laws`] a text has one list of lines or one first fault, and not
//! both; its nodes are there and its numbers within their bounds (`specs/Fits.antt`); and names are those of the
//! language of workloads. The words of other texts that have such numbers and names are read by the same calls ([`number_up_to`],
//! [`integer_of`], [`node_number`], [`is_name`], [`is_word`]). `specs/Inner/` is of this crate alone.
#![tactic(auto)]

mod act;
mod fault;
mod forms;
pub mod laws;
mod line;
mod name;
mod number;
mod parts;
mod schedule;
mod stops;

pub use fault::{TextFault, What};
pub use forms::Forms;
pub use line::{Act, Line, Request};
pub use name::ProcedureName;
pub use number::{integer_of, is_name, is_word, node_number, number_up_to};
pub use schedule::{parse_requests, parse_schedule};
