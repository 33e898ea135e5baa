//! Why a text has no tree.

ghost use Rattle.std.specs.Prelude.{◌≡◌, Some};
ghost use Rattle.roc_lang.specs.FaultText.{what_text};
ghost use Rattle.roc_lang.specs.declared.fault.LangError.TheVariants.{NoMemory};

use std::alloc::{AllocError, AllocFailed};
use std::fmt;
use thiserror::Error;

/// What is wrong at a place of a text.
#[derive(Clone, Copy, Debug, PartialEq, Eq)]
pub enum What {
    /// Bytes that are no token.
    Word,
    /// A token with which no text goes on.
    Token,
    /// A token with which only texts past the limits go on.
    Limit,
    /// The text stops where more must come.
    End,
}

impl What {
    /// The word that is printed for it: `word`, `token`, `limit` or `end`.
    pub fn as_str(self) -> &'static str
        ensures { result.now ≡ what_text self }
    {
        match self {
            What::Word => "word",
            What::Token => "token",
            What::Limit => "limit",
            What::End => "end",
        }
    }
}

impl fmt::Display for What {
    ghost output = { λ what. Some (what_text what) };

    fn fmt<W: fmt::Write>(&self, f: &mut fmt::Formatter<W>) -> fmt::Result {
        f.write_str(self.as_str())
    }
}

/// Why a text has no tree.
#[derive(Debug, Drop, Error)]
pub enum LangError {
    /// The first fault of a text, with its line, counted from 1.
    #[error("line {line}: {what}")]
    At { line: u32, what: What },
    /// No memory was left for the tree.
    #[error("out of memory")]
    NoMemory,
}

impl From<AllocError> for LangError {
    ghost from_gives = { λ _ e. e ≡ NoMemory };

    fn from(_e: AllocError) -> LangError {
        LangError::NoMemory
    }
}

impl<T: Drop> From<AllocFailed<T>> for LangError {
    ghost from_gives = { λ _ e. e ≡ NoMemory };

    fn from(_e: AllocFailed<T>) -> LangError {
        LangError::NoMemory
    }
}
