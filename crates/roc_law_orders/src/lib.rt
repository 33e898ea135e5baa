//! The law about orders: if groups of transactions run on one store in some real order, and an order of the
//! transactions follows the conflicts of that run, each group sees and does what it would if the transactions ran one
//! after another (`docs/PROOF.md`, "The law about orders").
//!
//! No code stands here, and nothing of shards, messages or servers: what groups do is an abstract record
//! (`specs/Behaviour.antt`), and runs are lists (`specs/Runs.antt`). `specs/Orders.antt` has the premises (`Follows`),
//! and `specs/Growth.antt` what stays as more groups run. The layers above may rely on [`laws`], whatever list of
//! decided transactions comes: `runs_are_serial`, and `last_values_are_serial` for cells whose writers all ran. That
//! the premises can be met is shown by transactions one by one, and by a small behaviour (`specs/Counter.antt`).
#![tactic(auto)]

pub mod laws;
