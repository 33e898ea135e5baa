//! The words that every layer speaks: transaction ids, shards and nodes, lists of numbers, ids of rows, and the lists
//! of predecessors that servers and coordinators exchange.
//!
//! Contracts see a transaction id as `specs/TxnId.antt` orders and prints it (`c.s`), a shard and a node as
//! `specs/Node.antt` does (`sN`, `cN`), `Nums` as a list of integers, a `Key` as its one to four integers
//! (`specs/Key.antt`), an `Edge` as a `Dependency` with at least one of its two tags (`specs/Edge.antt`), and `Edges`
//! as a list of these that rises strictly by id (`specs/Edges.antt`). `specs/Equality.antt` has what `==` computes.
//!
//! The layers above may rely on this: `Edges::unite` is the union by id, tags joined and the least shard kept, whatever
//! the order and the repetitions of what is added, and by [`laws`] a union is the only rising list that has at each id
//! what the entries say together; `Edges::find` is exactly the look-up. Two values of `Edges` or of `Nums` are equal
//! exactly if their lists are, and their copies share one list in memory until one of them is changed. What fails for
//! want of memory leaves the value as it was.
//!
//! [`Steps`] counts steps, which only contracts see: at run time a count takes no bytes, and a step no code. A function
//! that may be held to a bound takes a count and says by how much the count grows. The step's tick stands where nothing
//! else leads to what is counted. A caller that counts nothing takes a `Blank` and is called with `Brand` for the ledger.
#![tactic(auto)]

mod among;
mod edge;
mod edges;
mod id;
mod key;
pub mod laws;
mod memory;
mod node;
mod nums;
mod steps;

pub use among::is_among;
pub use edge::Edge;
pub use edges::Edges;
pub use id::TxnId;
pub use key::Key;
pub use memory::NoMemory;
pub use node::{Node, Shard};
pub use nums::Nums;
pub use steps::Steps;
