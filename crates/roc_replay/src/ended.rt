//! How a replay ends.

use roc_sched::What;

/// The counts of a whole report.
#[derive(Clone, Copy)]
pub struct Summary {
    /// How many transactions were answered.
    pub answered: u64,
    /// How many have no reply.
    pub pending: u64,
    /// How many messages were sent.
    pub messages: u64,
    /// How many submissions were refused as busy.
    pub busy: u64,
}

/// How a replay ends.
#[derive(Clone, Copy)]
pub enum Ended {
    /// The whole schedule was played, and its whole report was written.
    Done(Summary),
    /// The schedule's text has a fault at this line, or asks there for a message that was not sent
    /// yet.
    Text { line: u32, what: What },
    /// The sink failed.
    SinkFault,
    /// No memory.
    NoMemory,
}
