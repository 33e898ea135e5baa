//! What a server answers to a message.

use roc_msg::Reason;

/// What became of a message.
#[derive(Clone, Copy)]
pub enum Handled {
    /// It was taken.
    Done,
    /// It came too late: nothing was sent, and nothing changed but what comes of a watermark that it told.
    Gone,
    /// It was ignored: nothing changed and nothing was sent.
    Ignored(Reason),
}
