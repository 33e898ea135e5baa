//! What a coordinator answers.

use roc_base::{Nums, TxnId};
use roc_msg::Reason;
use thiserror::Error;

/// What became of a message.
#[derive(Drop)]
pub enum Handled {
    /// It was taken.
    Done,
    /// It was taken, and with it the transaction or view has its reply.
    Answered { id: TxnId, reply: Nums },
    /// It was ignored: nothing changed and nothing was sent.
    Ignored(Reason),
}

/// Why a submission is refused. Of several causes the first in this order is named.
#[derive(Clone, Copy, Debug, PartialEq, Eq, Error)]
pub enum SubmitFault {
    /// The plan has no such procedure.
    #[error("no procedure")]
    NoProc,
    /// Another count of arguments than the procedure takes.
    #[error("arguments")]
    Args,
    /// The coordinator has submitted as many transactions and views as it may.
    #[error("spent")]
    Spent,
    /// As many transactions and views are unanswered as may be.
    #[error("busy")]
    Busy,
    /// There is no memory for what comes of the submission. The coordinator and the outbox are as they were, but for the room that they
    /// have, so the same submission may be made again.
    #[error("out of memory")]
    NoMemory,
}
