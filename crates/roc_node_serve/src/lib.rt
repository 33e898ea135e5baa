//! Running a server: the loop that leads the datagrams of a link through a server's own core, over any link, any sink, any
//! disk and any book.
//!
//! [`serve`] opens the journal that is named, if one is, then the book under the name of the log, if one is, binds the shard's
//! address and runs a server, to the end that [`ServeEnd`] tells. Its contract cites `specs/ServeEnd.antt`, which says for each
//! end what the link took and gave and what the sink took, `specs/Keeping.antt`, which says what the journal holds then and what
//! a stop at any moment of the call leaves of it, and `specs/Logging.antt`, which says what the book took; and `specs/Pieces.antt`,
//! which says in how many writes the lines go out. The first three rest on the
//! node's run: a fold of one event after another, a datagram that came or silence (`specs/ServerRun.antt`), whose steps are those
//! of the core. It begins with the first state of the core, or with what the journal gave and one tick.
//!
//! The layers above may rely on these definitions. A fault of link, sink, disk or book comes only if its count rose, and no other
//! end if a count did; a turn is one receive, and the link was given the node's datagrams in order, those of a turn behind
//! its receive and before the next one. It took all but at most as many as its `lost` rose by, and its events tell at its place
//! each that it lost. What leaves a record is in the journal before anything is sent for it, and the lines of an event are in the
//! book before that. What arrived and was sent is spoken of as far as the link tells it, what was written as far as the sink does,
//! what the journal holds as far as the disk does, and what the log has as far as the book does. `specs/Inner/` is of this crate
//! alone.
#![tactic(auto)]

mod ends;
mod logging;
mod server_node;
mod server_turns;
mod serving;
mod starting;

pub use ends::ServeEnd;
pub use server_node::count_answer;
pub use serving::serve;
