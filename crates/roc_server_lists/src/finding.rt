//! What comes of lists that were learnt: it is found before anything else changes.
ghost use Rattle.std.specs.Prelude.{◌≡◌, ◌++◌, [], IfOk, OnOk};
ghost use Rattle.std.specs.List.Sorted.{IsStrictlySortedBy};
ghost use Rattle.roc_base.specs.TxnId.{is_txn, txn_cmp};
ghost use Rattle.roc_sequence.specs.Places.{IsListed};
ghost use Rattle.roc_step.specs.Forgets.{over};
ghost use Rattle.roc_step.specs.New.{AreNewTaken};
ghost use Rattle.roc_server_taken.specs.Components.{AreOver};
ghost use Rattle.roc_server_lists.specs.Inner.Finding.{AreAlike, AreIdsSame, FindsOfNews};
ghost use Rattle.roc_server_lists.specs.Inner.Trials.{HasRoomToKeep};

use crate::missing::missing_from;
use crate::parts::ListParts;
use crate::teaching::Named;
use crate::trial::Found;
use roc_base::{NoMemory, TxnId};
use roc_sequence::Sequence;
use roc_server_groups::StartedGroups;
use roc_server_table::ListTable;
use roc_server_taken::{members_of, over_within};
use std::alloc::Global;

// Finds what comes of lists that were learnt last and name this, and what is over then, and takes the room for it.
pub(crate) fn find_with_room(
    alloc: Global,
    parts: &mut ListParts,
    started: &StartedGroups,
    named: &Named,
) -> Result<(Found, Vec<TxnId>), NoMemory>
    requires rising { IsStrictlySortedBy txn_cmp named.now.done.items }
    requires same { AreIdsSame parts.old.table }
    requires none_over { over parts.old.marks parts.old.taken.components ≡ [] }
    ensures finds { IfOk result (λ p. FindsOfNews started.now.groups parts.old named.now p.0) }
    ensures over { IfOk result (λ p. AreOver parts.old.marks (parts.old.taken.components ++ p.0.components.items) p.1.items) }
    ensures room { IfOk result (λ p. HasRoomToKeep parts.new p.0) }
    ensures same { AreAlike parts.old parts.new }
{
    let (found, over) = find_all(alloc, parts, started, named)?;
    make_room(parts, &found)?;
    Ok((found, over))
}

// Finds what comes of lists that were learnt last and name this, and what is over then.
fn find_all(
    alloc: Global,
    parts: &mut ListParts,
    started: &StartedGroups,
    named: &Named,
) -> Result<(Found, Vec<TxnId>), NoMemory>
    requires rising { IsStrictlySortedBy txn_cmp named.now.done.items }
    requires same { AreIdsSame parts.old.table }
    requires none_over { over parts.old.marks parts.old.taken.components ≡ [] }
    ensures finds { IfOk result (λ p. FindsOfNews started.now.groups parts.old named.now p.0) }
    ensures over { IfOk result (λ p. AreOver parts.old.marks (parts.old.taken.components ++ p.0.components.items) p.1.items) }
    ensures same { parts.new ≡ parts.old }
{
    let asks = missing_from(alloc, parts, started, named.edges.as_slice(), &named.done)?;
    let components = find_taken(&mut parts.table)?;
    let ids = members_of(alloc, &components)?;
    let over = over_within(alloc, &parts.marks, &components)?;
    Ok((
        Found {
            asks,
            components,
            ids,
        },
        over,
    ))
}

// The components that are decided and were not before, in the order in which they are taken.
pub(crate) fn find_taken(table: &mut ListTable) -> Result<Vec<Sequence<TxnId>>, NoMemory>
    ensures same { table.new ≡ table.old }
    ensures taken { IfOk result (λ components. AreNewTaken (IsListed is_txn table.old.decided) table.old.links components.items) }
{
    let ids = table.newly()?;
    table.components(&ids)
}

// Takes the memory ahead that is needed to keep what was found.
fn make_room(parts: &mut ListParts, found: &Found) -> Result<(), NoMemory>
    ensures same { AreAlike parts.old parts.new }
    ensures room { OnOk result (HasRoomToKeep parts.new found.now) }
{
    parts.waits.reserve(found.asks.len())?;
    parts.taken.reserve(found.components.len())
}
