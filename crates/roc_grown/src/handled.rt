//! What a node answers that may go over to a grown workload.

use roc_base::{Nums, TxnId};
use roc_coord::SubmitFault;
use roc_msg::Reason;
use thiserror::Error;

/// What became of a message at a server.
#[derive(Clone, Copy)]
pub enum GrownHandled {
    /// It was taken.
    Done,
    /// It came too late: nothing was sent, and nothing changed but what comes of a watermark that it told.
    Gone,
    /// It is of another file than the server's own: nothing changed and nothing was sent.
    Skipped,
    /// It was ignored: nothing changed and nothing was sent.
    Ignored(Reason),
}

/// What became of a message at a coordinator.
#[derive(Drop)]
pub enum GrownAnswer {
    /// It was taken.
    Done,
    /// It was taken, and with it the transaction or view has its reply.
    Answered { id: TxnId, reply: Nums },
    /// It is of another file than the coordinator's own: nothing changed and nothing was sent.
    Skipped,
    /// It was ignored: nothing changed and nothing was sent.
    Ignored(Reason),
}

/// Why a submission is refused.
#[derive(Clone, Copy, Debug, PartialEq, Eq, Error)]
pub enum GrownFault {
    /// The coordinator drains: it takes no submission before it has switched.
    #[error("draining")]
    Draining,
    /// It does not drain, and this is why a coordinator of its own file refuses it.
    #[error("{0}")]
    Plain(SubmitFault),
}
