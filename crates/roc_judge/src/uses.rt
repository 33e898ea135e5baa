//! Pairs of one server's accesses.
ghost use Rattle.std.specs.Prelude.{◌≡◌, ◌++◌, IfOk, OnOk, filter};
ghost use Rattle.std.specs.List.{flat_map};
ghost use Rattle.std.specs.List.Sorted.{IsStrictlySortedBy};
ghost use Rattle.roc_base.specs.TxnId.{is_txn, txn_cmp};
ghost use Rattle.roc_sequence.specs.Places.{is_listed};
ghost use Rattle.roc_rows.specs.declared.cell.Cell.{Cell as CellValue};
ghost use Rattle.roc_judge.specs.Inner.Uses.{pair_with, pair_writer, pair_readers, pairs_for, last_of, last_after, last_at, step, walk, nobody};

use roc_base::{NoMemory, TxnId};
use roc_depgraph::is_among_rising;
use roc_msg::Ran;
use roc_precedence::Pair;
use roc_rows::Cell;
use std::alloc::Global;
use std::collections::BTreeMap;

/// Who wrote a cell last, and who read it since.
#[derive(Drop)]
pub(crate) struct Since {
    pub writer: Option<TxnId>,
    pub readers: Vec<TxnId>,
}

// One before another, unless they are one.
pub(crate) fn pair_with(pairs: &mut Vec<Pair>, later: TxnId, earlier: TxnId) -> Result<(), NoMemory>
    ensures { OnOk result (pairs.new.items ≡ pairs.old.items ++ pair_with later earlier) }
{
    if earlier == later {
        return Ok(());
    }
    pairs.push(Pair { later, earlier })?;
    Ok(())
}

fn pair_writer(pairs: &mut Vec<Pair>, later: TxnId, writer: Option<TxnId>) -> Result<(), NoMemory>
    ensures { OnOk result (pairs.new.items ≡ pairs.old.items ++ pair_writer later writer) }
{
    match writer {
        None => Ok(()),
        Some(earlier) => pair_with(pairs, later, earlier),
    }
}

fn pair_all(pairs: &mut Vec<Pair>, later: TxnId, readers: &[TxnId]) -> Result<(), NoMemory>
    ensures { OnOk result (pairs.new.items ≡ pairs.old.items ++ flat_map (pair_with later) readers.now) }
{
    for earlier in readers {
        pair_with(pairs, later, *earlier)?;
    }
    Ok(())
}

fn pair_readers(
    pairs: &mut Vec<Pair>,
    writes: bool,
    later: TxnId,
    readers: &[TxnId],
) -> Result<(), NoMemory>
    ensures { OnOk result (pairs.new.items ≡ pairs.old.items ++ pair_readers writes later readers.now) }
{
    if writes {
        pair_all(pairs, later, readers)
    } else {
        Ok(())
    }
}

// The pairs of an access at a cell.
fn pair_since(pairs: &mut Vec<Pair>, since: &Since, id: TxnId, writes: bool) -> Result<(), NoMemory>
    ensures { OnOk result (pairs.new.items ≡ pairs.old.items ++ (pair_writer id (last_of since.now).writer ++ pair_readers writes id (last_of since.now).readers)) }
{
    pair_writer(pairs, id, since.writer)?;
    pair_readers(pairs, writes, id, since.readers.as_slice())
}

// A cell behind an access.
fn note(since: &mut Since, id: TxnId, writes: bool) -> Result<(), NoMemory>
    ensures { OnOk result (last_of since.new ≡ last_after writes id (last_of since.old)) }
{
    if writes {
        since.writer = Some(id);
        since.readers.clear();
        return Ok(());
    }
    since.readers.push(id)?;
    Ok(())
}

// The pairs of an access, and its cell behind it.
fn take_at(since: &mut Since, pairs: &mut Vec<Pair>, access: Ran) -> Result<(), NoMemory>
    ensures pairs { OnOk result (pairs.new.items ≡ pairs.old.items ++ pairs_for (last_of since.old) access) }
    ensures last { OnOk result (last_of since.new ≡ last_after access.writes access.id (last_of since.old)) }
{
    let (id, writes) = (access.id, access.writes);
    pair_since(pairs, &*since, id, writes)?;
    note(since, id, writes)
}

fn first(alloc: Global, access: Ran) -> Result<Since, NoMemory>
    ensures { IfOk result (λ since. last_of since ≡ last_after access.writes access.id nobody) }
{
    let mut since = Since {
        writer: None,
        readers: Vec::new(alloc),
    };
    note(&mut since, access.id, access.writes)?;
    Ok(since)
}

// The pairs of an access, and the table behind it.
fn take(
    alloc: Global,
    table: &mut BTreeMap<Cell, Since>,
    pairs: &mut Vec<Pair>,
    access: Ran,
) -> Result<(), NoMemory>
    ensures pairs { OnOk result (pairs.new.items ≡ pairs.old.items ++ pairs_for (last_at table.old access.cell) access) }
    ensures table { OnOk result ((c : CellValue) → last_at table.new c ≡ step (last_at table.old) access c) }
{
    if let Some(since) = table.get_mut(&access.cell) {
        return take_at(since, pairs, access);
    }
    let since = first(alloc, access)?;
    table.insert(access.cell, since)?;
    Ok(())
}

// The pairs of an access that waits.
fn look(table: &BTreeMap<Cell, Since>, pairs: &mut Vec<Pair>, access: Ran) -> Result<(), NoMemory>
    ensures { OnOk result (pairs.new.items ≡ pairs.old.items ++ pairs_for (last_at table.now access.cell) access) }
{
    match table.get(&access.cell) {
        None => Ok(()),
        Some(since) => pair_since(pairs, since, access.id, access.writes),
    }
}

// The pairs of the accesses that wait, of these ids.
fn look_all(
    table: &BTreeMap<Cell, Since>,
    pairs: &mut Vec<Pair>,
    ids: &[TxnId],
    waits: &[Ran],
) -> Result<(), NoMemory>
    requires { IsStrictlySortedBy txn_cmp ids.now }
    ensures { OnOk result (pairs.new.items ≡ pairs.old.items ++ flat_map (λ b. pairs_for (last_at table.now b.cell) b) (filter (λ b. is_listed is_txn ids.now b.id) waits.now)) }
{
    for access in waits {
        if is_among_rising(ids, access.id) {
            look(table, pairs, *access)?;
        }
    }
    Ok(())
}

/// Adds the pairs of one server's accesses, of these ids.
pub(crate) fn pair_uses(
    alloc: Global,
    pairs: &mut Vec<Pair>,
    ids: &[TxnId],
    ran: &[Ran],
    waits: &[Ran],
) -> Result<(), NoMemory>
    requires { IsStrictlySortedBy txn_cmp ids.now }
    ensures { OnOk result (pairs.new.items ≡ pairs.old.items ++ walk (λ c. nobody) (filter (λ b. is_listed is_txn ids.now b.id) ran.now) (filter (λ b. is_listed is_txn ids.now b.id) waits.now)) }
{
    let mut table = BTreeMap::new(alloc);
    for access in ran {
        if is_among_rising(ids, access.id) {
            take(alloc, &mut table, pairs, *access)?;
        }
    }
    look_all(&table, pairs, ids, waits)
}
