//! The integers that tell the rows of a table and place apart.
ghost use Rattle.std.specs.Prelude.{◌≡◌, ◌≤◌, ◌<◌, length};

use std::cmp::Ordering;
use std::hash::{Hash, Hasher};
use std::marker::Model;

/// The id of a row: one to four integers, ordered as lists are: `[1]` comes before `[1,-5]`.
#[derive(Clone, Copy, Debug)]
pub struct Key {
    len: u8,
    // The integers, and 0 behind them.
    numbers: [i64; 4],
}

impl Model for Key {
    ghost use Rattle.std.specs.Prelude.{List, ℤ};

    ghost Value = { List ℤ };

    ghost use Rattle.std.specs.Prelude.{◌-◌, ◌++◌, pos, length, take, replicate};
    ghost use Rattle.roc_base.specs.Inner.Shape.{IsKeyShape};
    ghost use Rattle.roc_base.specs.Inner.Keys.{given_len, given_numbers};

    ghost view = { λ k. take k.len k.numbers };

    ghost invariant = { λ k. IsKeyShape k.len k.numbers };

    ghost inverse = { λ xs. record { len = length xs; numbers = xs ++ replicate (4 - length xs) (pos 0) } };

    ghost inverse_ok = { λ k h i. record { len = given_len k.len k.numbers h i; numbers = given_numbers k.len k.numbers h i } };
}

impl Key {
    /// The id of these integers.
    pub fn from_slice(items: &[i64]) -> Key
        requires some { 0 < length items.now }
        requires few { length items.now ≤ 4 }
        ensures { result ≡ items.now }
    {
        let mut numbers = [0; 4];
        numbers[..items.len()].copy_from_slice(items);
        Key {
            len: items.len() as u8,
            numbers,
        }
    }

    /// The integers, at least one and at most four.
    pub fn as_slice(&self) -> &[i64]
        ensures value { result.now ≡ self.now }
        ensures some { 0 < length self.now }
        ensures few { length self.now ≤ 4 }
    {
        &self.numbers[..self.len as usize]
    }
}

impl PartialEq for Key {
    ghost use Rattle.roc_base.specs.Equality.{is_nums};
    ghost use Rattle.roc_base.specs.Equalities.{nums_per};

    ghost eq = { is_nums };

    ghost laws = { nums_per };

    fn eq(&self, other: &Key) -> bool {
        self.as_slice() == other.as_slice()
    }
}

impl Eq for Key {
    ghost use Rattle.roc_base.specs.Equalities.{nums_equivalence};

    ghost laws = { nums_equivalence };
}

impl PartialOrd for Key {
    ghost use Rattle.roc_base.specs.Key.{key_cmp};
    ghost use Rattle.roc_base.specs.Inner.Keys.{key_partial_order};
    ghost use Rattle.std.specs.Ordering.{as_partial_cmp};

    ghost partial_cmp = { as_partial_cmp key_cmp };

    ghost laws = { key_partial_order };

    fn partial_cmp(&self, other: &Key) -> Option<Ordering> {
        Some(self.cmp(other))
    }
}

impl Ord for Key {
    ghost use Rattle.std.specs.Prelude.{refl};
    ghost use Rattle.roc_base.specs.Key.{key_cmp};
    ghost use Rattle.roc_base.specs.KeyOrder.{key_cmp-total, is_nums-by_cmp};

    ghost cmp = { key_cmp };

    ghost total = { key_cmp-total };

    ghost matches_partial_cmp = { λ _ _. refl };

    ghost matches_eq = { is_nums-by_cmp };

    fn cmp(&self, other: &Key) -> Ordering {
        self.as_slice().cmp(other.as_slice())
    }
}

impl Hash for Key {
    ghost use Rattle.std.specs.Hash as fed;
    ghost use Rattle.roc_base.specs.Inner.Keys.{key_alike};

    ghost hash_input = { fed.slice fed.i64 };

    ghost respects_eq = { key_alike };

    fn hash<H: Hasher>(&self, state: &mut H) {
        self.as_slice().hash(state);
    }
}
