//! Lists of numbers.
ghost use Rattle.std.specs.Prelude.{◌≡◌, ◌++◌, ◌∷◌, ◌↔◌, ◌==◌, [], length, IsTrue, IfOk, OnOk, OnErr};

use crate::NoMemory;
use roc_sequence::Shared;
use std::alloc::{AllocError, Global};
use std::marker::Model;

/// A list of numbers, as arguments, bound values and outs of a transaction travel. Its copies share their numbers until one of them is
/// changed.
#[derive(Debug, Drop)]
pub struct Nums {
    items: Shared<i64>,
}

impl Model for Nums {
    ghost use Rattle.std.specs.Prelude.{List, ℤ};

    ghost Value = { List ℤ };

    ghost view = { λ n. n.items };
}

impl Nums {
    /// No numbers. Takes no memory.
    pub fn new(alloc: Global) -> Nums
        ensures { result ≡ [] }
    {
        Nums {
            items: Shared::new(alloc),
        }
    }

    /// A copy of the numbers of a slice.
    pub fn from_slice(alloc: Global, items: &[i64]) -> Result<Nums, NoMemory>
        ensures { IfOk result (λ nums. nums ≡ items.now) }
    {
        let items = Vec::from_slice(alloc, items)?;
        Ok(Nums::from_vec(items))
    }

    /// The numbers of a vector. It takes a little memory, so that copies can share them; where there is none, a copy will take it.
    pub fn from_vec(items: Vec<i64>) -> Nums
        ensures { result ≡ items.items }
    {
        Nums {
            items: Shared::from_vec(items),
        }
    }

    /// Adds a number at the end. `NoMemory` leaves the list as it was.
    pub fn push(&mut self, number: i64) -> Result<(), NoMemory>
        ensures ok { OnOk result (self.new ≡ self.old ++ number ∷ []) }
        ensures err { OnErr result (self.new ≡ self.old) }
    {
        self.extend_from_slice(&[number])
    }

    /// Adds the numbers of a slice at the end. `NoMemory` leaves the list as it was.
    pub fn extend_from_slice(&mut self, added: &[i64]) -> Result<(), NoMemory>
        ensures ok { OnOk result (self.new ≡ self.old ++ added.now) }
        ensures err { OnErr result (self.new ≡ self.old) }
    {
        self.items.extend_from_slice(added)?;
        Ok(())
    }

    /// How many numbers there are.
    pub fn len(&self) -> usize
        ensures { result ≡ length self.now }
    {
        self.items.len()
    }

    /// Whether there are none.
    pub fn is_empty(&self) -> bool
        ensures { result ≡ (length self.now == 0) }
    {
        self.items.is_empty()
    }

    /// The numbers, first to last.
    pub fn as_slice(&self) -> &[i64]
        ensures { result.now ≡ self.now }
    {
        self.items.as_slice()
    }
}

/// A copy is on the same allocator, and is the same list. It takes no memory, unless there was too little of it as the list was made.
impl Clone for Nums {
    ghost use Rattle.std.specs.Prelude.{◌≡◌};

    ghost is_clone = { λ from copy. copy ≡ from };

    fn clone(&self) -> Result<Nums, AllocError> {
        let items = self.items.clone()?;
        Ok(Nums { items })
    }
}

impl PartialEq for Nums {
    ghost use Rattle.std.specs.Prelude.{◌≡◌, ◌↔◌, IsTrue};
    ghost use Rattle.roc_base.specs.Equality.{is_nums};
    ghost use Rattle.roc_base.specs.Equalities.{nums_per};

    ghost eq = { is_nums };

    ghost laws = { nums_per };

    /// Equal exactly where the lists are.
    fn eq(&self, other: &Nums) -> bool
        ensures test { result ≡ is_nums self.now other.now }
        ensures equal { IsTrue result ↔ (self.now ≡ other.now) }
    {
        self.as_slice() == other.as_slice()
    }
}

impl Eq for Nums {
    ghost use Rattle.roc_base.specs.Equalities.{nums_equivalence};

    ghost laws = { nums_equivalence };
}
