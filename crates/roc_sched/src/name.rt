//! The name of a procedure, as a line has it.
ghost use Rattle.std.specs.Prelude.{◌≡◌, IfOk};

use std::alloc::{AllocError, Global};
use std::marker::Model;

/// The name of a procedure as it is written, seen as its bytes. Whether there is such a procedure is judged under a plan.
#[derive(Drop)]
pub struct ProcedureName {
    bytes: Vec<u8>,
}

impl Model for ProcedureName {
    ghost use Rattle.std.specs.Prelude.{ℕ, List};

    ghost Value = { List ℕ };

    ghost view = { λ n. n.bytes.items };
}

impl ProcedureName {
    pub(crate) fn copied(alloc: Global, word: &[u8]) -> Result<Self, AllocError>
        ensures { IfOk result (λ name. name ≡ word.now) }
    {
        Ok(ProcedureName {
            bytes: Vec::from_slice(alloc, word)?,
        })
    }

    /// The bytes of the name. Takes no memory.
    pub fn as_bytes(&self) -> &[u8]
        ensures { result.now ≡ self.now }
    {
        self.bytes.as_slice()
    }
}
