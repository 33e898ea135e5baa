//! A shard's server: the cells of its places, the groups that started there, and the dependency lists that it knows
//! (`docs/PROTOCOL.md`, "Server" to "Ticks of a server"). Contracts see a [`Server`] as the `ServerState` of
//! `roc_step`, beside what it keeps for views and what was made ahead (`Serving` of `specs/State.antt`), and what comes of a message as the
//! `ServerStep` that `specs/Step.antt` of `roc_step` fixes, case by case.
//!
//! The layers above may rely on this: [`Server::handle`] is exactly that step, whatever the message, forged ones too,
//! under any plan that its groups are of (`ServerFits` of `specs/Fits.antt` of `roc_step`, `ServingFits` of `specs/Ahead.antt`), and they stay of it; an ignored message
//! changes nothing and sends nothing; [`Server::tick`] sends exactly `tick_sends` and changes nothing. Where memory ends,
//! the server and what the outbox holds are as they were, but for their room, so the same call may be made again.
//! [`Server::ready`] says what `handle` will answer and takes all memory for it: then the room is there (`HasRoom` of
//! `specs/Ahead.antt`), `handle` of that message cannot want memory, and [`Server::take_ready`] gives out what was made, which [`Server::give_up`]
//! takes back. What is made ahead is not in the `ServerState`.
//! [`Server::decided`] tells exactly whether a transaction is decided here, [`Server::cells`] lists the cells that are
//! not 0, and [`Server::waiting`] the buffered groups of undecided transactions (`specs/Waiting.antt` of `roc_step`).
//! [`Server::entries`] gives the entries of a group that would start, and looks at no more started groups than there are
//! pairs of a cell that it uses and an undecided group of its class that uses that cell (`users` of `specs/Start.antt` of `roc_step`).
//!
//! Beside its state a server keeps what views need (`Viewing` of `specs/State.antt` of `roc_step`): how often each cell was written, and reads that wait.
//! A read of a view is judged, and changes nothing of the state; it is answered behind the step, its own or a later one, behind which no undecided
//! group here writes one of its cells, with the cells and the versions as that step leaves them (`AnswersReads` of `specs/Reads.antt` of `roc_step`,
//! which is one, too). ROCOCO (OSDI 2014, on read-only transactions) has a server wait for the conflicting transactions that it knows; here too
//! no read is answered ahead of such a one. A server without reads that wait pays the counting alone.
//!
//! [`Server::restart`] gives up the reads that wait, and nothing else that is seen: the rest is what the server's records give (`IsKeptFold` and
//! `StandsFor` of `specs/Restarts.antt` of `roc_step`, with their laws). [`Server::renew`] gives up all but the cells, their versions and the watermarks
//! (`specs/Renewed.antt` of `roc_step`): what is left is of any plan.
//!
//! What a server keeps beside its state, so that most steps cost what is undecided, is in an invariant of the type and in
//! no clause. `specs/Inner/` is of this crate alone.
#![tactic(auto)]

mod ahead;
mod commits;
mod fetches;
mod first;
mod handling;
mod parts;
mod reads;
mod server;
mod settled;
mod started_now;
mod starts;
mod teach;
mod trying;
mod waiting;

pub use roc_step::{Handled, KeptRead, StartedGroup, Waiting};
pub use server::Server;
