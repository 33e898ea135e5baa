//! An index from cells to groups: at each cell the references of the groups that use it, in the order in which they came. A
//! [`GroupRef`] names a group that started by its transaction and number, with what tells its class.
//!
//! Contracts see an [`Index`] as the list of its cells with their references and room, and read it by `group_refs_at` and
//! `spare_at` of `specs/GroupRefs.antt`, and by `lookup` only to say that an entry has gone. The layers above may rely on
//! this: what is added stands behind what is there, each reference once in a row; what is taken out at a cell are the
//! references of one transaction, and its entry goes with the last of them; and no other cell changes.
//! If memory is wanting, all references stay as they were. Where [`Index::reserve`] took it ahead, one `add` at that cell
//! cannot fail.
#![tactic(auto)]

mod group_ref;
mod index;

pub use group_ref::GroupRef;
pub use index::Index;
