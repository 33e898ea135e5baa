//! The lists that a server keeps, by number: each transaction whose list it knows or that a link names has a row, and a link is the number of a row
//! with the birth of what it names. So to forget a transaction ends one row, whatever names it. Which transactions are decided is marked row by row.
//! What is not so is marked with a row without a list that it waits for, and is looked at again only once that row gets its list or ends.
//! Rows and marks, and how single ones change, are those of `roc_server_rows`.
//!
//! Contracts see a [`ListTable`] as `TableLists` (`specs/Kept.antt`): the lists as they came and what is followed of each, both in the order in which
//! they came, and the transactions that are marked as decided, by id rising, each once. What is new, what is followed and in which components
//! transactions are taken are the words of `roc_step` and `roc_component`.
//!
//! The layers above may rely on this. Lists come behind the others, all or none ([`ListTable::learn`]), and are taken back without memory
//! ([`ListTable::unlearn`]): of lists that were learnt last, those are left that were known before (`proofs/Unlearnt.antt`).
//! [`ListTable::newly`] finds all that is decided and not marked so, [`ListTable::components`] in which components it is taken, and
//! [`ListTable::decide`] marks it. [`ListTable::newly_without`] and [`ListTable::components_without`] tell the same ahead of
//! [`ListTable::settle`], after which the entries that name one transaction are done. [`ListTable::forget`] takes decided transactions out.
//! [`ListTable::led_to`] gives the least of the transactions to which entries lead, by bits that say which row leads to which. A call that finds no
//! memory leaves the table as it was, and those that change it without a `Result` take none.
#![tactic(auto)]

mod changes;
mod components;
mod finding;
mod leading;
mod table;

pub use table::ListTable;
