//! The log machine: what happens on all shards, in real order, as logs of which groups started and ran, what each shard
//! decided, and who was answered; and the one order of all decided transactions (`docs/PROOF.md`, "The log machine").
//!
//! No code stands here, and nothing of messages, servers or lists that are learnt: `specs/Steps.antt` has three rules
//! (a group starts, a shard decides, a transaction is answered) over `specs/Log.antt`, for a plan of which only what
//! `specs/Scheme.antt` asks is known. `specs/Taking.antt` has the orders in which a shard takes new transactions,
//! `specs/Invariants.antt` what holds of each log and what no step takes back, `specs/Settled.antt` transactions of
//! which the whole component is answered, `specs/Kept.antt` lists of decided transactions that keep what ran,
//! `specs/Clean.antt` cells of which a log says what they hold, and `specs/Edges.antt` edges that somebody follows, as
//! tests.
//!
//! The layers above may rely on [`laws`]: whatever these rules let happen, each group that ran of a decided transaction
//! saw and did what it would if the decided transactions ran one after another (`executions_are_serial`), and shards
//! agree on what precedes what, as far as it has a group there (`shards_keep_order`). A shard need not wait for what is
//! settled, so its list may lack what precedes its transactions. That a scheme can be sound and a transaction answered
//! is shown by a small one (`specs/Counting.antt`).
#![tactic(auto)]

pub mod laws;
