//! The datagrams that nodes send one another, as bytes: `docs/FORMATS.md`, "Datagrams".
//!
//! A header and a message whose counts, numbers and orders are in range (`specs/Fits.antt`) have one spelling
//! (`specs/Spelling.antt`), and [`encode`] writes it. [`decode`] reads exactly these: what is no spelling has a first
//! fault from left to right, by a grammar of fields (`specs/Reading.antt`). That bytes spell at most one pair, are read
//! as the pair that they spell, and have a fault exactly if they spell no pair, are [`laws`]. [`tag`] is the first 8
//! bytes of the SHA-256 of a workload's text, and takes no memory.
//!
//! Each field is proved by itself to read its spelling and nothing else (`proofs/Exact.antt`), and so are fields that
//! are composed of others: a further kind of message is one such composition.
#![tactic(auto)]

mod fault;
mod fields;
mod header;
pub mod laws;
mod lists;
mod numbers;
mod reading;
mod writing;

pub use fault::WireFault;
pub use header::{Header, tag};
pub use reading::decode;
pub use writing::encode;
