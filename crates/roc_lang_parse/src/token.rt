//! The tokens of a text.

/// The greatest integer, which the grammar takes behind a `-` alone.
pub(crate) const GREATEST_INTEGER: u64 = 1 << 63;

#[derive(Drop)]
pub(crate) enum Kind {
    /// A letter, then letters, digits and `_`: a name or a word of the grammar.
    Word(String),
    Integer(u64),
    /// One of `{ } ( ) [ ] , ; . = + - *`.
    Mark(u8),
}

/// A token where it stands: `line` counts from 1.
#[derive(Drop)]
pub(crate) struct Token {
    pub kind: Kind,
    pub line: u32,
}
