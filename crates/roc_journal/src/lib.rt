//! A journal of messages on a disk that may stop at any moment: `docs/FORMATS.md`, "Journal".
//!
//! A file is a journal of at most one list of records, and each file is one or has one first place that is wrong
//! ([`laws`]; `specs/Format.antt` and `Faults.antt` say what a journal is over its bytes). [`Reader::open`] syncs the file,
//! and [`Reader::next`] gives its records one by one, up to the end or to exactly the place that is wrong
//! (`specs/Reading.antt`). Neither writes, and [`Reader::into_journal`] cuts what stands behind the last gate.
//!
//! A record counts behind an open gate, so [`Journal::append`] writes a record and the next, closed gate behind the last,
//! waits for the disk, opens the gate, and waits again: a stop at any moment of it, inside a write too, leaves a journal of
//! the records from before or one with the new record, and after Ok of nothing else (`specs/Settled.antt`).
//! [`Journal::create`] makes an empty file a journal, and no stop inside makes a record up. All this holds as far as the
//! disk tells what a stop may leave (`roc_disk`); the causes of failures hold of each disk.
#![tactic(auto)]

mod fault;
mod journal;
pub mod laws;
mod pieces;
mod reader;
mod record;
mod through;

pub use fault::{AppendFault, ReadFault};
pub use journal::{Journal, MOST_BYTES};
pub use reader::Reader;
pub use record::{Record, record_of};
