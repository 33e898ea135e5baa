//! What comes of a group's run.
use crate::Access;
use roc_base::{NoMemory, Nums};
use roc_sequence::Sequence;
use std::alloc::Global;
use std::marker::Model;

// What groups give and touch.
#[derive(Drop)]
pub(crate) struct Given {
    pub bound: Vec<i64>,
    pub outs: Vec<i64>,
    pub cells: Vec<Access>,
}

/// What groups that ran gave, and what they used, with room for more: a group that runs needs room for each of its statements, and, while
/// it runs, for each name of its procedure.
#[derive(Drop)]
pub struct Outputs {
    pub(crate) given: Given,
    pub(crate) names: Vec<i64>,
}

impl Model for Outputs {
    ghost use Rattle.std.specs.Prelude.{◌-◌, min, vec_len, vec_capacity};
    ghost use Rattle.roc_group.specs.Outputs.{GroupOutputs};

    ghost Value = { GroupOutputs };

    ghost view = { λ o. record {
      bound = o.given.bound.items;
      outs = o.given.outs.items;
      cells = o.given.cells.items;
      spare = min (vec_capacity o.given.bound - vec_len o.given.bound) (min (vec_capacity o.given.outs - vec_len o.given.outs) (vec_capacity o.given.cells - vec_len o.given.cells));
      names = vec_capacity o.names;
    } };
}

impl Outputs {
    ghost use Rattle.std.specs.Prelude.{◌≡◌, ◌≤◌, [], IsOk, OnOk};
    ghost use Rattle.roc_group.specs.Outputs.{AreSameOutputs};

    /// Nothing. Takes no memory.
    pub fn new(alloc: Global) -> Outputs
        ensures bound { result.bound ≡ [] }
        ensures outs { result.outs ≡ [] }
        ensures cells { result.cells ≡ [] }
    {
        Outputs {
            given: Given {
                bound: Vec::new(alloc),
                outs: Vec::new(alloc),
                cells: Vec::new(alloc),
            },
            names: Vec::new(alloc),
        }
    }

    /// The values of the names that the groups bind, in the order in which they are bound.
    pub fn bound(&self) -> &[i64]
        ensures { result.now ≡ self.now.bound }
    {
        self.given.bound.as_slice()
    }

    /// What they add to the reply.
    pub fn outs(&self) -> &[i64]
        ensures { result.now ≡ self.now.outs }
    {
        self.given.outs.as_slice()
    }

    /// The cells that they touched, in the order in which they did.
    pub fn cells(&self) -> &[Access]
        ensures { result.now ≡ self.now.cells }
    {
        self.given.cells.as_slice()
    }

    /// For how many more statements there is room.
    pub fn spare(&self) -> usize
        ensures { result ≡ self.now.spare }
    {
        let Given { bound, outs, cells } = &self.given;
        let bound = bound.capacity() - bound.len();
        let outs = outs.capacity() - outs.len();
        let cells = cells.capacity() - cells.len();
        bound.min(outs.min(cells))
    }

    /// Takes memory ahead: room for so many more statements, and for so many names of a procedure. What is held stays, whether there is
    /// memory or not. `NoMemory` comes only where there is less room than this.
    pub fn reserve(&mut self, statements: usize, names: usize) -> Result<(), NoMemory>
        ensures same { AreSameOutputs self.old self.new }
        ensures statements { OnOk result (statements ≤ self.new.spare) }
        ensures names { OnOk result (names ≤ self.new.names) }
        ensures succeeds { statements ≤ self.old.spare → names ≤ self.old.names → IsOk result }
        ensures kept { (self.old.spare ≤ self.new.spare) × (self.old.names ≤ self.new.names) }
    {
        self.given.bound.reserve(statements)?;
        self.given.outs.reserve(statements)?;
        self.given.cells.reserve(statements)?;
        self.names.clear();
        self.names.reserve(names)?;
        Ok(())
    }

    /// What the names bind, what is added to the reply, and the cells that were touched. Takes no memory.
    pub fn into_parts(self) -> (Nums, Nums, Sequence<Access>)
        ensures bound { result.0 ≡ self.bound }
        ensures outs { result.1 ≡ self.outs }
        ensures cells { result.2 ≡ self.cells }
    {
        let Given { bound, outs, cells } = self.given;
        (
            Nums::from_vec(bound),
            Nums::from_vec(outs),
            Sequence::from_vec(cells),
        )
    }
}
