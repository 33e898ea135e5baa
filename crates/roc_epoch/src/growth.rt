//! Whether the workload of a plan is a grown one of another's.
ghost use Rattle.std.specs.Prelude.{◌≡◌, ◌↔◌, IsTrue, map};
ghost use Rattle.roc_program.specs.Parts as view;
ghost use Rattle.roc_epoch.specs.Growth.{StandsInFront, IsGrowth};

use crate::GrowthFault;
use roc_plan::Plan;
use roc_program::{Init, Procedure, Table};

// What is compared one by one.
trait Part {
    // What it is apart from where it lies in memory.
    ghost Text: { Type 0 };

    ghost text: { Self → Text };

    fn is_as(&self, other: &Self) -> bool
        ensures { IsTrue result ↔ (text self.now ≡ text other.now) };
}

impl Part for Table {
    ghost use Rattle.roc_program.specs.Program as pure;

    ghost Text = { pure.Table };

    ghost text = { view.table };

    fn is_as(&self, other: &Table) -> bool {
        self.is_same(other)
    }
}

impl Part for Init {
    ghost use Rattle.roc_program.specs.Program as pure;

    ghost Text = { pure.Init };

    ghost text = { view.init };

    fn is_as(&self, other: &Init) -> bool {
        self.is_same(other)
    }
}

impl Part for Procedure {
    ghost use Rattle.roc_program.specs.Program as pure;

    ghost Text = { pure.Procedure };

    ghost text = { view.procedure };

    fn is_as(&self, other: &Procedure) -> bool {
        self.is_same(other)
    }
}

/// Whether the new plan's workload is a grown one of the old plan's, or what is wrong first. It says nothing of the groups of the two plans, which
/// may differ for the same procedure. Takes no memory.
pub fn extends(old: &Plan, new: &Plan) -> Result<(), GrowthFault>
    ensures { IsGrowth old.now.program new.now.program result }
{
    let before = old.workload();
    let after = new.workload();
    if after.shards() != before.shards() {
        return Err(GrowthFault::Shards);
    }
    if !is_front(before.tables(), after.tables()) {
        return Err(GrowthFault::Table);
    }
    if !are_same(before.inits(), after.inits()) {
        return Err(GrowthFault::Init);
    }
    if !is_front(before.procedures(), after.procedures()) {
        return Err(GrowthFault::Proc);
    }
    Ok(())
}

// Whether one list is the front of another, one by one.
fn is_front<T: Part>(front: &[T], whole: &[T]) -> bool
    ensures { IsTrue result ↔ StandsInFront (map T.text front.now) (map T.text whole.now) }
{
    if whole.len() < front.len() {
        return false;
    }
    for at in 0..front.len() {
        if !front[at].is_as(&whole[at]) {
            return false;
        }
    }
    true
}

// Whether two lists are of one text.
fn are_same<T: Part>(some: &[T], others: &[T]) -> bool
    ensures { IsTrue result ↔ (map T.text others.now ≡ map T.text some.now) }
{
    if others.len() != some.len() {
        return false;
    }
    is_front(some, others)
}
