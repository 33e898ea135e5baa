//! Servers of a cluster that are started and stopped from here: [`run_local`] starts them as children, submits requests
//! and stops them, and [`send_stops`] stops servers that run elsewhere.
//!
//! The layers above may rely on this: [`send_stops`] gives the server of each shard in order three stops in a row from
//! coordinator 0, and the link took them in their order, all but at most as many as its count of lost sends rose by
//! (`specs/Stops.antt`). [`run_local`] binds, starts the server of each shard, submits the requests as coordinator 0,
//! stops the servers and awaits each child that was started, also behind a fault and behind want of memory: at each
//! wait, the link had sent all stops (`specs/Local.antt`, on `specs/Children.antt`); the first of what went wrong is the end, and a child is to blame
//! only if nothing else was. No log is kept.
#![tactic(auto)]

mod children;
mod local;
mod stops;

pub use children::ChildEnd;
pub use local::{LocalEnd, run_local};
pub use stops::{StopEnd, send_stops};
