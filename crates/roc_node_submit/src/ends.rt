//! How the loop of a coordinator ends.

/// How submitting ends.
#[derive(Clone, Copy, Debug, PartialEq, Eq)]
pub enum SubmitEnd {
    /// Each request is answered, and all lines are written.
    Done,
    /// All turns were taken and a request is unanswered or was not submitted, and all lines are written.
    Unanswered,
    /// The bind or a receive failed.
    LinkFault,
    /// A write failed.
    SinkFault,
    /// The book of the log failed: it was not opened, or did not take a piece.
    BookFault,
    /// No memory.
    NoMemory,
}
