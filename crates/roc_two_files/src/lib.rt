//! Two runs of the world with views, one behind the other: of a program, up to where nothing is unanswered, and of a grown one from what that run left. These
//! are laws over both; no code stands here.
//!
//! Where nothing is unanswered a world leaves a beginning ([`drained`]): each node of it may begin anew there, with its cells, versions, watermarks and next
//! sequence, and without all else. What a run of the old program and a run of the grown one from there tell, one behind the other, one serial order explains,
//! which is that of the first with that of the second behind it ([`epochs`]). Of histories, orders and programs alone this is said in [`witnesses`]. A network
//! that carries the messages of both runs is two networks, side by side ([`sealed`]).
#![tactic(auto)]

pub mod drained;
pub mod epochs;
pub mod sealed;
pub mod witnesses;
