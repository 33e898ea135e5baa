//! The watermarks of coordinators.
ghost use Rattle.std.specs.Prelude.{◌≡◌, length};
ghost use Rattle.roc_step.specs.Below.{none_below, is_ended, mark_of, raised};

use roc_base::TxnId;
use std::marker::Model;

/// Of each of sixteen coordinators, below which sequence it has answered all its transactions, as far as it was heard.
#[derive(Drop)]
pub struct Marks {
    below: [u32; 16],
}

impl Model for Marks {
    ghost use Rattle.std.specs.Prelude.{◌≡◌, ℕ, List, length};

    ghost Value = { List ℕ };

    ghost view = { λ m. m.below };

    ghost invariant = { λ m. length m.below ≡ 16 };
}

impl Marks {
    /// None was heard. Takes no memory.
    pub fn new() -> Marks
        ensures { result ≡ none_below }
    {
        Marks { below: [0; 16] }
    }

    /// What they are once a coordinator has told this watermark. One past the last coordinator is not kept, and one that is not higher changes nothing.
    /// Takes no memory.
    pub fn raised(&self, coord: u16, mark: u32) -> Marks
        ensures { result ≡ raised self.now coord mark }
    {
        let at = usize::from(coord);
        let mut below = self.below;
        if at < 16 {
            below[at] = below[at].max(mark);
        }
        Marks { below }
    }

    // Of how many coordinators there are watermarks.
    pub(crate) fn count(&self) -> u16
        ensures value { result ≡ length self.now }
        ensures sixteen { result ≡ 16 }
    {
        // This look lets the proof see how many the invariant says there are.
        let _ = &self.below;
        self.below.len() as u16
    }

    /// The watermark of a coordinator, 0 where none was heard. Takes no memory.
    pub fn of(&self, coord: u16) -> u32
        ensures { result ≡ mark_of self.now coord }
    {
        match self.below.get(usize::from(coord)) {
            Some(mark) => *mark,
            None => 0,
        }
    }

    /// Whether a transaction is below its coordinator's watermark. Takes no memory.
    pub fn is_ended(&self, id: TxnId) -> bool
        ensures { result ≡ is_ended self.now id }
    {
        match self.below.get(usize::from(id.coord)) {
            Some(mark) => id.seq < *mark,
            None => false,
        }
    }
}
