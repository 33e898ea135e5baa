//! Why bytes are no log.

ghost use Rattle.std.specs.Prelude.{◌≡◌, IfOk, string_bytes};
ghost use Rattle.roc_log.specs.FaultText.{what_text};
ghost use Rattle.roc_log.specs.Inner.Given.{with_line_number};
ghost use Rattle.roc_log.specs.declared.fault.LineFault.TheVariants as line;
ghost use Rattle.roc_log.specs.declared.fault.LogFault.TheVariants.{NoMemory};

use roc_base::{NoMemory, Node};
use std::alloc::{AllocError, AllocFailed, Global};
use thiserror::Error;

/// What is wrong at a line.
#[derive(Clone, Copy, Debug, PartialEq, Eq, Error)]
pub enum What {
    /// The line has no form of those that there are, or may not stand where it stands.
    #[error("word")]
    Word,
    /// The first line names a coordinator or a shard that is not there.
    #[error("node")]
    Node,
    /// It names a node of which there is a log already.
    #[error("twice {0}")]
    Twice(Node),
    /// A submission of a procedure that is not there.
    #[error("procedure")]
    Procedure,
    /// A submission with another count of arguments than its procedure takes.
    #[error("arguments")]
    Arguments,
    /// A submission of a view, which no log has.
    #[error("view")]
    View,
}

impl What {
    /// What is printed for it: its word, and the node behind it. `NoMemory` comes where there is none for the text.
    pub fn text(&self, alloc: Global) -> Result<String, NoMemory>
        ensures { IfOk result (λ text. string_bytes text ≡ what_text self.now) }
    {
        let text = match self {
            What::Word => format!(in alloc; "word")?,
            What::Node => format!(in alloc; "node")?,
            What::Twice(node) => format!(in alloc; "twice {node}")?,
            What::Procedure => format!(in alloc; "procedure")?,
            What::Arguments => format!(in alloc; "arguments")?,
            What::View => format!(in alloc; "view")?,
        };
        Ok(text)
    }
}

/// Why words are no line.
#[derive(Drop)]
pub(crate) enum LineFault {
    Is(What),
    NoMemory,
}

impl LineFault {
    /// The fault at its line.
    pub(crate) fn at(self, line: u64) -> LogFault
        ensures { result ≡ with_line_number line self }
    {
        match self {
            LineFault::Is(what) => LogFault::At { line, what },
            LineFault::NoMemory => LogFault::NoMemory,
        }
    }
}

impl From<NoMemory> for LineFault {
    ghost from_gives = { λ _ e. e ≡ line.NoMemory };

    fn from(_e: NoMemory) -> LineFault {
        LineFault::NoMemory
    }
}

impl From<AllocError> for LineFault {
    ghost from_gives = { λ _ e. e ≡ line.NoMemory };

    fn from(_e: AllocError) -> LineFault {
        LineFault::NoMemory
    }
}

/// Why there is no log.
#[derive(Debug, Drop, Error)]
pub enum LogFault {
    /// The first fault of the bytes, with its line, counted from 1.
    #[error("line {line}: {what}")]
    At { line: u64, what: What },
    /// No memory was left for the log.
    #[error("out of memory")]
    NoMemory,
}

impl From<AllocError> for LogFault {
    ghost from_gives = { λ _ e. e ≡ NoMemory };

    fn from(_e: AllocError) -> LogFault {
        LogFault::NoMemory
    }
}

impl<T: Drop> From<AllocFailed<T>> for LogFault {
    ghost from_gives = { λ _ e. e ≡ NoMemory };

    fn from(_e: AllocFailed<T>) -> LogFault {
        LogFault::NoMemory
    }
}
