//! Witnesses of why a workload is refused: unreorderable cycles of its SC-graph (`docs/CHECKER.md`, "Witnesses").
//!
//! The layers above may rely on this: [`is_unreorderable`] holds exactly of the cycles of `roc_scgraph`'s
//! `specs/Cycles.antt`, and takes no memory. [`shortest`] finds, of two pieces of one procedure, a shortest cycle that
//! the S-edge of the two closes (`specs/Shortest.antt`), and of the shortest the least in the order of
//! `specs/Order.antt`, or says that there is no such cycle. Its time grows with the square of the number of pieces,
//! whatever they do, which no clause says.
#![tactic(auto)]

mod columns;
mod cycle;
mod order;
mod search;
mod table;
mod vertices;
mod walks;

pub use cycle::is_unreorderable;
pub use search::shortest;
