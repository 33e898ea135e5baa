//! The lines of a schedule, and those of a request file.

use crate::ProcedureName;
use roc_base::{Node, Nums, Shard};

/// What a line of a schedule asks for.
#[derive(Drop)]
pub enum Act {
    /// The procedure of this name is submitted at a coordinator.
    Submit {
        coord: u16,
        name: ProcedureName,
        args: Nums,
    },
    /// The message of this number comes to its receiver.
    Deliver(u64),
    /// A message that was never delivered comes to its receiver: of these, by number rising, the
    /// one at this place, which is counted round.
    Any(u32),
    /// A node's tick.
    Tick(Node),
    /// The server of a shard stops and starts again, behind the delivery of a message where one is named. With it stands
    /// how many of the messages that come of it are sent, or nothing where the server has no record of it.
    Stop {
        shard: Shard,
        during: Option<(u64, Option<u32>)>,
    },
    /// A coordinator takes no more submissions.
    Drain(u16),
}

/// A line of a schedule that is not skipped. Its number counts from 1, skipped lines too.
#[derive(Drop)]
pub struct Line {
    pub number: u32,
    pub act: Act,
}

/// A line of a request file that is not skipped: the call of a procedure, with the line's number.
#[derive(Drop)]
pub struct Request {
    pub line: u32,
    pub name: ProcedureName,
    pub args: Nums,
}
