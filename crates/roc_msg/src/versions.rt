//! Versions of cells.
ghost use Rattle.std.specs.Prelude.{◌≡◌, ◌++◌, ◌∷◌, ◌==◌, [], length, OnOk, OnErr};

use roc_base::NoMemory;
use std::alloc::{AllocError, Global};
use std::marker::Model;

/// The versions of the cells that a group of a read-only transaction reads, in the order in which it
/// reads them. A cell's version is the number of writes made to it.
#[derive(Debug, Drop)]
pub struct CellVersions {
    items: Vec<u64>,
}

impl Model for CellVersions {
    ghost use Rattle.std.specs.Prelude.{List, ℕ};

    ghost Value = { List ℕ };

    ghost view = { λ v. v.items.items };
}

impl CellVersions {
    /// No versions. Takes no memory.
    pub fn new(alloc: Global) -> CellVersions
        ensures { result ≡ [] }
    {
        CellVersions {
            items: Vec::new(alloc),
        }
    }

    /// Adds a version at the end. `NoMemory` leaves the list as it was.
    pub fn push(&mut self, version: u64) -> Result<(), NoMemory>
        ensures ok { OnOk result (self.new ≡ self.old ++ version ∷ []) }
        ensures err { OnErr result (self.new ≡ self.old) }
    {
        self.items.push(version)?;
        Ok(())
    }

    /// How many versions there are.
    pub fn len(&self) -> usize
        ensures { result ≡ length self.now }
    {
        self.items.len()
    }

    /// Whether there are none.
    pub fn is_empty(&self) -> bool
        ensures { result ≡ (length self.now == 0) }
    {
        self.items.is_empty()
    }

    /// The versions, first to last.
    pub fn as_slice(&self) -> &[u64]
        ensures { result.now ≡ self.now }
    {
        self.items.as_slice()
    }
}

/// A copy is on the same allocator, and is the same list.
impl Clone for CellVersions {
    ghost use Rattle.std.specs.Prelude.{◌≡◌};

    ghost is_clone = { λ from copy. copy ≡ from };

    fn clone(&self) -> Result<CellVersions, AllocError> {
        Ok(CellVersions {
            items: self.items.clone()?,
        })
    }
}

impl PartialEq for CellVersions {
    ghost use Rattle.std.specs.Prelude.{◌≡◌, ◌↔◌, IsTrue};
    ghost use Rattle.roc_msg.specs.Equality.{is_versions};
    ghost use Rattle.roc_msg.specs.Equalities.{versions_per};

    ghost eq = { is_versions };

    ghost laws = { versions_per };

    /// Equal exactly where the lists are.
    fn eq(&self, other: &CellVersions) -> bool
        ensures test { result ≡ is_versions self.now other.now }
        ensures equal { IsTrue result ↔ (self.now ≡ other.now) }
    {
        self.as_slice() == other.as_slice()
    }
}

impl Eq for CellVersions {
    ghost use Rattle.roc_msg.specs.Equalities.{versions_equivalence};

    ghost laws = { versions_equivalence };
}
