//! A fault of a name, which it lends.

ghost use Rattle.std.specs.Prelude.{◌≡◌, List, [], Some, if◌then◌else◌, IfOk};
ghost use Rattle.std.specs.String.{string_bytes};
ghost use Rattle.roc_lang.specs.Scope.{Fault, Twice, fault_at, viewed};
ghost use Rattle.roc_lang.specs.Tree.{name_tree};
ghost use Rattle.roc_lang_scope.specs.Fault as fault;
ghost use Rattle.roc_lang_scope.specs.Fault.{first, IsFirst};
ghost use Rattle.roc_lang_scope.specs.Inner.Misuse.{reason_kind, misuse_fault, Finds};

use crate::{ScopeFault, ScopeWhat};
use roc_lang::Name;
use std::alloc::{AllocError, Global};

/// What is wrong with a name.
#[derive(Clone, Copy, Debug)]
pub(crate) enum Reason {
    Twice,
    Unknown,
    LaterUsed,
    SamePieceKey,
    Unbound,
    Arity,
    Viewed,
}

/// A name that is declared or used where it may not be, or as it may not be.
#[derive(Clone, Copy)]
pub(crate) struct Misuse<'a> {
    pub reason: Reason,
    pub name: &'a Name,
    /// Where the fault is told.
    pub line: u32,
}

/// A fault where the name stands.
pub(crate) fn at_name(reason: Reason, name: &Name) -> Misuse<'_>
    ensures { misuse_fault result ≡ record { kind = reason_kind reason (string_bytes name.now.text); line = name.now.line } }
{
    Misuse {
        reason,
        name,
        line: name.line,
    }
}

// What is wrong, with a name of its own.
fn what_of(alloc: Global, misuse: &Misuse) -> Result<ScopeWhat, AllocError>
    ensures { IfOk result (λ what. fault.kind what ≡ reason_kind misuse.now.reason (string_bytes misuse.now.name.now.text)) }
{
    let name = String::from_str(alloc, misuse.name.text.as_str())?;
    Ok(match misuse.reason {
        Reason::Twice => ScopeWhat::Twice(name),
        Reason::Unknown => ScopeWhat::Unknown(name),
        Reason::LaterUsed => ScopeWhat::LaterUsed(name),
        Reason::SamePieceKey => ScopeWhat::SamePieceKey(name),
        Reason::Unbound => ScopeWhat::Unbound(name),
        Reason::Arity => ScopeWhat::Arity(name),
        Reason::Viewed => ScopeWhat::Viewed(name),
    })
}

/// The fault, with a name of its own.
pub(crate) fn owned(alloc: Global, misuse: &Misuse) -> ScopeFault
    ensures { (faults : List Fault) → first faults ≡ Some (misuse_fault misuse.now) → IsFirst faults result }
{
    match what_of(alloc, misuse) {
        Ok(what) => ScopeFault::At {
            line: misuse.line,
            what,
        },
        Err(_) => ScopeFault::NoMemory,
    }
}

/// Nothing of the same kind has the name before.
pub(crate) fn check_new(is_repeated: bool, name: &Name) -> Result<(), Misuse<'_>>
    ensures { Finds result (if is_repeated then fault_at (name_tree name.now) Twice else []) }
{
    if is_repeated {
        Err(at_name(Reason::Twice, name))
    } else {
        Ok(())
    }
}

/// What a view may not have does not stand on this line of the piece.
pub(crate) fn check_view(is_wrong: bool, piece: &Name, line: u32) -> Result<(), Misuse<'_>>
    ensures { Finds result (viewed is_wrong (name_tree piece.now) line) }
{
    if is_wrong {
        Err(Misuse {
            reason: Reason::Viewed,
            name: piece,
            line,
        })
    } else {
        Ok(())
    }
}
