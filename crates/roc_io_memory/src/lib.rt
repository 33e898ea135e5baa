//! The outside in memory, for tests: no crate of the program stands on it. Of each trait of `roc_io` there is one
//! implementation that fails at chosen calls (`Mem..`), and one whose count is always 0 (`Calm..`), so that what holds
//! unless a count rose holds of it without a premise.
//!
//! `specs/Calls.antt` has the calls made and those that are to fail; `Files.antt`, `Sink.antt`, `Link.antt` and
//! `Spawner.antt` have what each implementation keeps. Once memory is wanting for what is kept, it is told no more, and
//! the answers stay as they were. [`Calls`] and [`Kept`] are what the implementations are made of, for objects in memory of
//! other traits too. Small callers over any implementation ([`read_two`], [`drain`], [`wait_all`];
//! `specs/Callers.antt`) show that the clauses of the traits carry.
#![tactic(auto)]

mod callers;
mod calls;
mod files;
mod kept;
mod link;
mod sink;
mod spawner;

pub use callers::{Drained, TwoRead, drain, read_two, wait_all};
pub use calls::Calls;
pub use files::name::FileName;
pub use files::{CalmFiles, MemFiles, StoredFile};
pub use kept::Kept;
pub use link::{CalmLink, MemLink};
pub use sink::{CalmSink, MemSink};
pub use spawner::start::ChildStart;
pub use spawner::{CalmSpawner, MemSpawner};
