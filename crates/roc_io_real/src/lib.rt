//! The machine as the traits of `roc_io`, `roc_disk` and `roc_book`, and the program's words (`words_given`). `RealFiles`
//! reads files by their paths, one byte more than the limit at most; `Stream` is standard output or standard error, where a
//! piece goes out whole before the next begins; `Gathered` is one where pieces are written together, which `finish_both`
//! ends; `RealLink` is one UDP socket, whose receives wait for 20 to 320 milliseconds; `RealSpawner` starts the program
//! itself with other words, without input and output; `RealDisk` has one file open and locked; `RealBook` writes one file
//! anew.
//!
//! They count their faults, and tell nothing of what is held, taken, bound, sent, received, started, awaited and left by a
//! stop: what the system does is beyond any clause, and is tested. What a `Gathered` does with bytes is proved as far as its
//! writer tells them (`specs/Gathered.antt`); that the machine's writers do so too rests on there being one body.
#![tactic(auto)]

mod book;
mod children;
mod disk;
mod ending;
mod files;
mod gathered;
mod link;
mod pace;
mod streams;
mod words;

pub use book::RealBook;
pub use children::RealSpawner;
pub use disk::RealDisk;
pub use ending::finish_both;
pub use files::RealFiles;
pub use gathered::Gathered;
pub use link::RealLink;
pub use streams::Stream;
pub use words::{Given, words_given};
