//! Lists that contracts see as lists, and where things stand in them.
//!
//! A `Vec` in a clause has a capacity and a pointer, so two of equal content are not equal there. A [`Sequence`] is its
//! elements and nothing else, whatever their type: the layers above hold a `Sequence` wherever a clause compares a
//! list. It grows at its end, and its elements are replaced one by one; a call that finds no memory leaves the list as
//! it was. A [`Shared`] is a list of which copies are one list in memory until one of them is changed.
//!
//! `specs/Lists.antt` has membership (`Has`); `specs/Places.antt` has where something stands first, what is listed
//! before what, and that nothing is listed twice, by a test that tells whether two are one; `specs/Rising.antt` has
//! lists in which each comes before all behind it. `proofs/` says once what appending, filtering and looking up do to
//! these.
#![tactic(auto)]

mod sequence;
mod shared;

pub use sequence::Sequence;
pub use shared::Shared;
