//! Which rows lead to which, in bits, and what entries lead to by them.
ghost use Rattle.std.specs.Prelude.{◌≡◌, ◌++◌, ◌∷◌, [], filter, IfOk, OnOk, OnErr, if◌then◌else◌};
ghost use Rattle.std.specs.Map.{lookup};
ghost use Rattle.roc_base.specs.TxnId.{is_txn};
ghost use Rattle.roc_step.specs.Led.{IsKnownAndLedTo};
ghost use Rattle.roc_server_reach.specs.Bits.{AreReached, AreSameBits, IsPut};
ghost use Rattle.roc_server_reach.specs.Least.{AreLeastIds};
ghost use Rattle.roc_server_rows.specs.Rows.{row_in, is_alive, is_told, row_links, AreWhole};
ghost use Rattle.roc_server_table.specs.Inner.Leading.{live_numbers, start_of, starts_of, told_ids, AreBits};

use roc_base::{Edge, NoMemory, TxnId};
use roc_server_reach::{BitRows, least};
use roc_server_rows::{Link, Parts, Row, ids_at, is_alive, is_told, number_of};
use std::alloc::Global;
use std::collections::HashMap;

// Notes where a row leads.
pub(crate) fn note_row(parts: &Parts, bits: &mut BitRows, at: usize) -> Result<(), NoMemory>
    ensures ok { OnOk result (IsPut at (live_numbers parts.now.rows.items (row_in parts.now.rows.items at).names) bits.old bits.new) }
    ensures err { OnErr result (AreSameBits bits.old bits.new) }
{
    match live_at(parts.alloc, &parts.rows, at) {
        Ok(numbers) => bits.put(at, &numbers),
        Err(fault) => Err(fault),
    }
}

// The numbers to which the links of a row lead that are alive.
fn live_at(alloc: Global, rows: &[Row], at: usize) -> Result<Vec<usize>, NoMemory>
    ensures { IfOk result (λ numbers. numbers.items ≡ live_numbers rows.now (row_in rows.now at).names) }
{
    match rows.get(at) {
        Some(row) => live_among(alloc, rows, row.names.as_slice()),
        None => Ok(Vec::new(alloc)),
    }
}

// The same of these links.
fn live_among(alloc: Global, rows: &[Row], links: &[Link]) -> Result<Vec<usize>, NoMemory>
    ensures { IfOk result (λ numbers. numbers.items ≡ live_numbers rows.now links.now) }
{
    let mut numbers = Vec::new(alloc);
    for link in links {
        push_live(&mut numbers, rows, *link)?;
    }
    Ok(numbers)
}

fn push_live(numbers: &mut Vec<usize>, rows: &[Row], link: Link) -> Result<(), NoMemory>
    ensures { OnOk result (numbers.new.items ≡ numbers.old.items ++ (if is_alive rows.now link then link.at ∷ [] else [])) }
{
    if !is_alive(rows, link) {
        return Ok(());
    }
    numbers.push(link.at)?;
    Ok(())
}

// The least of the transactions that have lists and to which entries lead.
pub(crate) fn led_to(parts: &Parts, bits: &BitRows, edges: &[Edge]) -> Result<Vec<TxnId>, NoMemory>
    requires whole { AreWhole parts.now }
    requires bits { AreBits parts.now.rows.items bits.now }
    ensures { IfOk result (λ ids. AreLeastIds (IsKnownAndLedTo (row_links parts.now.rows.items) edges.now) ids.items) }
{
    let found = reached_from(parts, bits, edges)?;
    let met = told_ids(parts.alloc, &parts.rows, &found)?;
    least(parts.alloc, &met)
}

// The rows to which those lead that entries name, and these.
fn reached_from(parts: &Parts, bits: &BitRows, edges: &[Edge]) -> Result<Vec<usize>, NoMemory>
    ensures { IfOk result (λ found. AreReached bits.now (starts_of parts.now.numbers.entries edges.now) found.items) }
{
    let starts = starts_of(parts.alloc, &parts.numbers, edges)?;
    bits.reached(&starts)
}

// The numbers of the rows of those that entries name.
fn starts_of(
    alloc: Global,
    numbers: &HashMap<TxnId, usize>,
    edges: &[Edge],
) -> Result<Vec<usize>, NoMemory>
    ensures { IfOk result (λ starts. starts.items ≡ starts_of numbers.now.entries edges.now) }
{
    let mut starts = Vec::new(alloc);
    for edge in edges {
        push_start(&mut starts, numbers, edge.from())?;
    }
    Ok(starts)
}

fn push_start(
    starts: &mut Vec<usize>,
    numbers: &HashMap<TxnId, usize>,
    id: TxnId,
) -> Result<(), NoMemory>
    ensures { OnOk result (starts.new.items ≡ starts.old.items ++ start_of (lookup (is_txn id) numbers.now.entries)) }
{
    if let Some(at) = number_of(numbers, id) {
        starts.push(at)?;
    }
    Ok(())
}

// The transactions of those of the rows that have lists.
fn told_ids(alloc: Global, rows: &[Row], numbers: &[usize]) -> Result<Vec<TxnId>, NoMemory>
    ensures { IfOk result (λ ids. ids.items ≡ told_ids rows.now numbers.now) }
{
    let told = told_among(alloc, rows, numbers)?;
    ids_at(alloc, rows, &told)
}

// Those of the rows that have lists.
fn told_among(alloc: Global, rows: &[Row], numbers: &[usize]) -> Result<Vec<usize>, NoMemory>
    ensures { IfOk result (λ told. told.items ≡ filter (λ n. is_told (row_in rows.now n)) numbers.now) }
{
    let mut told = Vec::new(alloc);
    for at in numbers {
        if is_told(rows, *at) {
            told.push(*at)?;
        }
    }
    Ok(told)
}
