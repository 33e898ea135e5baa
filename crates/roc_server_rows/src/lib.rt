//! The rows that the lists of a server stand in, and their marks. [`Parts`] has a row of each transaction whose list is known or that a link names,
//! and a link is the number of a row with the birth of what it names. So to forget a transaction ends one row, whatever names it. A [`Mark`] tells of
//! a row whether it is decided, and else at which row without a list it waits, where that is known.
//!
//! Contracts see the fields as they are. What rows hold is a `RowLists` (`specs/Changes.antt`), the lists as they came and what is followed of each,
//! which `lists_by` of `specs/Rows.antt` reads off rows. `AreWhole` there, and `AreMarked` and `AreOpen` of `specs/Marks.antt`, say what is kept right
//! of rows, of marks and of the list of what is undecided. Where links to one row are not followed, `specs/Except.antt` says what the rows are then,
//! and `specs/LinksBut.antt` what is followed.
//!
//! The layers above may rely on this. [`learn`] puts a list behind the others, [`untell`] takes one back, [`end_marked`] takes one out with its row
//! and mark, and each keeps rows whole; so does [`cut_rows`], by which all links to a row are done (`proofs/Excepted.antt`). Who changes rows keeps
//! the marks right: behind [`learn`] come marks for the rows that came, and [`open_row`]; before [`untell`] comes [`wake_all`], and [`keep_open`]
//! behind it; and behind [`cut_rows`] comes [`wake_all`]. [`newly`] finds all rows that are decided and not marked so, and marks at what the others
//! wait, so it looks at none of these again until the row at which it waits gets a list or ends. Without memory, [`learn`] and [`newly`] leave the
//! lists and what is decided as they were; nothing else here takes any but [`ids_at`].
#![tactic(auto)]

mod free_rows;
mod marking;
mod marks;
mod rows;

pub use marking::{cut_rows, end_marked, open_row};
pub use marks::{Mark, is_alive, is_told, keep_open, mark_of, newly, no_mark, wake_all};
pub use rows::{
    Link, Parts, Row, id_at, ids_at, learn, least_naming, list, none, number_of, untell,
};
