//! What comes of a transaction for which nobody has to wait any more.
ghost use Rattle.std.specs.Prelude.{◌≡◌, ◌≤◌, ◌∷◌, [], length, if◌then◌else◌, IfOk};
ghost use Rattle.roc_base.specs.TxnId.{is_txn};
ghost use Rattle.roc_sequence.specs.Places.{IsListed};
ghost use Rattle.roc_step.specs.Below.{is_ended};
ghost use Rattle.roc_step.specs.New.{AreNewTaken};
ghost use Rattle.roc_server_lists.specs.Inner.Trials.{links_settled, IsSettling};

use crate::finding::find_taken;
use crate::parts::ListParts;
use crate::trial::Settling;
use roc_base::{NoMemory, TxnId};
use roc_sequence::Sequence;
use roc_server_table::ListTable;
use roc_server_taken::{Marks, members_of, over_among};
use std::alloc::Global;

// Finds what comes of a settled transaction.
pub(crate) fn find_settled(
    alloc: Global,
    parts: &mut ListParts,
    id: TxnId,
    mark: u32,
) -> Result<Settling, NoMemory>
    ensures found { IfOk result (IsSettling parts.old id mark) }
    ensures same { parts.new ≡ parts.old }
{
    let marks = parts.marks.raised(id.coord, mark);
    let settled = if_ended(alloc, &marks, id)?;
    let is_known = parts.table.list(id).is_some();
    let components = find_taken_without(&mut parts.table, &settled)?;
    let ids = members_of(alloc, &components)?;
    let over = over_among(alloc, &marks, &parts.taken, &components)?;
    Ok(Settling {
        marks,
        settled,
        is_known,
        components,
        ids,
        over,
    })
}

// A transaction, where its watermark ends it.
fn if_ended(alloc: Global, marks: &Marks, id: TxnId) -> Result<Vec<TxnId>, NoMemory>
    ensures { IfOk result (λ ids. ids.items ≡ (if is_ended marks.now id then id ∷ [] else [])) }
{
    let mut ids = Vec::new(alloc);
    if marks.is_ended(id) {
        ids.push(id)?;
    }
    Ok(ids)
}

// The components that are decided where the entries that name these are done, and were not before, in the order in which they are taken.
fn find_taken_without(
    table: &mut ListTable,
    settled: &[TxnId],
) -> Result<Vec<Sequence<TxnId>>, NoMemory>
    requires { length settled.now ≤ 1 }
    ensures same { table.new ≡ table.old }
    ensures taken { IfOk result (λ components. AreNewTaken (IsListed is_txn table.old.decided) (links_settled table.old.links settled.now) components.items) }
{
    match settled.first() {
        Some(id) => find_taken_without_one(table, *id),
        None => find_taken(table),
    }
}

// The same for one of these.
fn find_taken_without_one(
    table: &mut ListTable,
    id: TxnId,
) -> Result<Vec<Sequence<TxnId>>, NoMemory>
    ensures same { table.new ≡ table.old }
    ensures taken { IfOk result (λ components. AreNewTaken (IsListed is_txn table.old.decided) (links_settled table.old.links (id ∷ [])) components.items) }
{
    let ids = table.newly_without(id)?;
    table.components_without(id, &ids)
}
