//! What learning a list answers.

/// Whether a list was known before it was taught.
#[derive(Clone, Copy, Debug, PartialEq, Eq)]
pub enum Learnt {
    /// No list of the transaction was known.
    New,
    /// An equal list is kept.
    Repeat,
    /// An unlike list is kept.
    Differs,
}
