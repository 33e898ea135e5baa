//! Why a text is no schedule and no request file.

ghost use Rattle.std.specs.Prelude.{◌≡◌, Some};
ghost use Rattle.roc_sched.specs.FaultText.{what_text};
ghost use Rattle.roc_sched.specs.Inner.Reading.{with_line_number};
ghost use Rattle.roc_sched.specs.declared.fault.LineFault.TheVariants as line;
ghost use Rattle.roc_sched.specs.declared.fault.TextFault.TheVariants.{NoMemory};

use roc_base::NoMemory;
use std::alloc::{AllocError, AllocFailed};
use std::fmt;
use thiserror::Error;

/// What is wrong at a line. Of several faults of one line the first of `Limit`, `Word` and `Node`
/// is named.
#[derive(Clone, Copy, Debug, PartialEq, Eq)]
pub enum What {
    /// A line, or the text, is past what is taken.
    Limit,
    /// The line has no form of those that there are.
    Word,
    /// It names a coordinator or a shard that is not there.
    Node,
    /// A delivery of a message that was not sent. No reader of a text tells it: it is for the layer
    /// that delivers.
    Message,
    /// A submission of a procedure that is not there. No reader of a text tells it: it is for the layer that knows the plan.
    Procedure,
    /// A submission with another count of arguments than its procedure takes, told by the same layer.
    Arguments,
}

impl What {
    /// The word that is printed for it.
    pub fn as_str(self) -> &'static str
        ensures { result.now ≡ what_text self }
    {
        match self {
            What::Limit => "limit",
            What::Word => "word",
            What::Node => "node",
            What::Message => "message",
            What::Procedure => "procedure",
            What::Arguments => "arguments",
        }
    }
}

impl fmt::Display for What {
    ghost output = { λ what. Some (what_text what) };

    fn fmt<W: fmt::Write>(&self, f: &mut fmt::Formatter<W>) -> fmt::Result {
        f.write_str(self.as_str())
    }
}

/// Why words are no line.
#[derive(Drop)]
pub(crate) enum LineFault {
    Is(What),
    NoMemory,
}

impl LineFault {
    /// The fault at its line.
    pub(crate) fn at(self, line: u32) -> TextFault
        ensures { result ≡ with_line_number line self }
    {
        match self {
            LineFault::Is(what) => TextFault::At { line, what },
            LineFault::NoMemory => TextFault::NoMemory,
        }
    }
}

impl From<NoMemory> for LineFault {
    ghost from_gives = { λ _ e. e ≡ line.NoMemory };

    fn from(_e: NoMemory) -> LineFault {
        LineFault::NoMemory
    }
}

impl From<AllocError> for LineFault {
    ghost from_gives = { λ _ e. e ≡ line.NoMemory };

    fn from(_e: AllocError) -> LineFault {
        LineFault::NoMemory
    }
}

/// Why there are no lines.
#[derive(Debug, Drop, Error)]
pub enum TextFault {
    /// The first fault of a text, with its line, counted from 1.
    #[error("line {line}: {what}")]
    At { line: u32, what: What },
    /// No memory was left for the lines.
    #[error("out of memory")]
    NoMemory,
}

impl From<NoMemory> for TextFault {
    ghost from_gives = { λ _ e. e ≡ NoMemory };

    fn from(_e: NoMemory) -> TextFault {
        TextFault::NoMemory
    }
}

impl From<AllocError> for TextFault {
    ghost from_gives = { λ _ e. e ≡ NoMemory };

    fn from(_e: AllocError) -> TextFault {
        TextFault::NoMemory
    }
}

impl<T: Drop> From<AllocFailed<T>> for TextFault {
    ghost from_gives = { λ _ e. e ≡ NoMemory };

    fn from(_e: AllocFailed<T>) -> TextFault {
        TextFault::NoMemory
    }
}
