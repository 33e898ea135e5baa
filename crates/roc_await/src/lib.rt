//! What a server waits for.
//!
//! [`Waits`] keeps the transactions whose lists a server asked for, each with the shard that it asked, which of them are
//! open, as their lists were not taken since, and who asked it for lists that it does not know. Contracts see it as an
//! `Awaited` (`specs/Waits.antt` of `roc_step`): the three lists, in order and each kept once (`AreKept`, an invariant of the type), and
//! how many more calls of [`Waits::ask`] or [`Waits::keep_asker`] cannot fail. Each call changes them exactly as its
//! definition says; one that finds no memory leaves them as they were. Only [`Waits::ask`], [`Waits::keep_asker`] and
//! [`Waits::reserve`] need any, and none where `spare` suffices; each of the first two takes at most one of it.
//!
//! [`Lacks`] keeps the transactions whose lists are known and that are not decided, each with the ids that are missing
//! for it (`specs/Lacks.antt`). No server stands on `Lacks`: what lists decide is found by marks (`roc_server_table`).
//! The layers above may rely on this: [`Lacks::learnt`] takes in the lists that were learnt last
//! (`specs/Learning.antt`), gives exactly the transactions that they decide, rising, and leaves all as it was if memory
//! is wanting. [`Lacks::ready`] finds the same and changes nothing, and then [`Lacks::take`] cannot fail.
//! [`Lacks::without`] finds what is decided and lacking once the entries that name some transactions of unknown lists
//! are left out (`specs/Released.antt`); it looks at no list.
//! [`Lacks::missing`] is how many ids are missing for a transaction whose list is known, as many as its closure names,
//! and takes no memory. `specs/Inner/` is of this crate alone.
#![tactic(auto)]

mod group;
mod grown;
mod lack;
mod lacks;
mod missing;
mod released;
mod taught;
mod waits;

pub use lack::Lack;
pub use lacks::{Lacks, NextLacks};
pub use roc_step::{Asker, OpenFetch};
pub use waits::Waits;
