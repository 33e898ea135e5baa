//! What is found of logs.

use roc_base::Shard;
use roc_judge::Judgement;

/// What is found of the logs of nodes.
#[derive(Drop)]
pub enum Verdict {
    /// The first log that its node's step does not give, by its place from 0, and the first of its lines that does not stand next there,
    /// counted from 1: one past the last where another line is due behind that.
    Mismatch { log: usize, line: u64 },
    /// All logs fold, and this is found of what they tell.
    Judged(Judgement),
}

/// Why there is no verdict.
#[derive(Clone, Copy)]
pub enum AuditFault {
    /// The least shard whose server no log is of.
    Gap(Shard),
    /// No memory was left.
    NoMemory,
}
