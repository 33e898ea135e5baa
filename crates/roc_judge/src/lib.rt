//! The judgement of logs that were folded: whether one serial order explains all that they tell. Nothing here knows of messages, cores
//! or the texts of logs.
//!
//! `specs/Before.antt` says what goes before what (`GoesBefore`), `specs/Judged.antt` which judgement is right (`IsJudged`), and
//! `specs/Vouched.antt` what an order vouches for (`IsVouched`). The layers above may rely on this: behind a `Yes` the order vouches for all that
//! the logs tell ([`laws`]), whoever made them.
#![tactic(auto)]

mod calls;
mod folded;
mod judgement;
mod judging;
pub mod laws;
mod pairs;
mod replies;
mod sets;
mod times;
mod uses;
mod whole;

pub use folded::Folded;
pub use judgement::Judgement;
pub use judging::judge;
