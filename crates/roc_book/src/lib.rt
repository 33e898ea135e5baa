//! The outside that a node's log goes to, as a trait: a book, which is opened under a name and takes pieces in order.
//!
//! A book counts its failures as the objects of `roc_io` do, and a contract sees the count and, as far as the book tells them, the names
//! that were opened and the bytes that were taken. A call that failed was counted, and any other left the count as it was
//! (`HasCause`); an open that failed leaves the names as they were, and a write that failed takes a front of its piece. The layers above
//! may rely on these clauses for every implementation. `specs/Book.antt` says which answer to an open reports a failure; a write answers
//! as that of a sink does. `specs/Call.antt` has what a book tells before and after a call as a value (`BookCall`), and what a node keeps
//! of its log (`Keeps`). [`NoBook`] is for a call that keeps none.
#![tactic(auto)]

mod book;
mod none;

pub use book::{Book, Opened};
pub use none::NoBook;
