//! The components of some transactions, as they are taken by what is followed of their lists.
ghost use Rattle.std.specs.Prelude.{◌≡◌, ◌&&◌, ◌<◌, [], length, not, IfOk, option_copied};
ghost use Rattle.std.specs.List.Sorted.{IsStrictlySortedBy};
ghost use Rattle.roc_sequence.specs.Places.{is_listed};
ghost use Rattle.roc_base.specs.TxnId.{is_txn, txn_cmp};
ghost use Rattle.roc_component.specs.Components.{AreTaken};
ghost use Rattle.roc_depgraph.specs.Deps.{entries_of};
ghost use Rattle.roc_server_table.specs.Inner.Among.{among, followed_from, is_skipped, links_past, links_within, skipped_at, told_row};
ghost use Rattle.roc_server_rows.specs.LinksBut.{links_but};
ghost use Rattle.roc_server_rows.specs.Rows.{followed, is_alive, row_links, row_in, IsRowTable};

use roc_base::{Edge, Edges, NoMemory, TxnId};
use roc_component::{rising, taken_components};
use roc_depgraph::{Deps, is_among_rising};
use roc_sequence::Sequence;
use roc_server_rows::{Link, Row, id_at, is_alive, number_of};
use std::alloc::Global;
use std::collections::HashMap;

// The components of transactions as they are taken, by what is followed of their lists, where links to the row `except` are not followed. Each
// entry of these lists is looked at once, and those that lead to none of the transactions are passed over. `NoMemory` comes where there is none
// for the components and for what is followed among the transactions.
pub(crate) fn taken_of(
    alloc: Global,
    numbers: &HashMap<TxnId, usize>,
    rows: &[Row],
    stamp: u64,
    ids: &[TxnId],
    except: Option<usize>,
) -> Result<Vec<Sequence<TxnId>>, NoMemory>
    requires { IsRowTable numbers.now.entries rows.now stamp }
    ensures { IfOk result (λ components. AreTaken (links_but except rows.now) ids.now components.items) }
{
    let members = rising(alloc, ids)?;
    if members.len() < 2 {
        return taken_few(alloc, ids);
    }
    let skipped = skipped_at(rows, except);
    let links = links_among(alloc, numbers, rows, stamp, &members, skipped)?;
    taken_components(alloc, &links, ids)
}

// The components of fewer than two transactions, which are the same whatever is followed.
fn taken_few(alloc: Global, ids: &[TxnId]) -> Result<Vec<Sequence<TxnId>>, NoMemory>
    ensures { IfOk result (λ components. AreTaken [] ids.now components.items) }
{
    let links = Deps::new(alloc);
    taken_components(alloc, &links, ids)
}

// The transaction of the row `except`.
fn skipped_at(rows: &[Row], except: Option<usize>) -> Option<TxnId>
    ensures { result ≡ skipped_at except rows.now }
{
    match except {
        Some(at) => Some(id_at(rows, at)),
        None => None,
    }
}

// What is followed from one of the ids, which rise, to another.
fn links_among(
    alloc: Global,
    numbers: &HashMap<TxnId, usize>,
    rows: &[Row],
    stamp: u64,
    ids: &[TxnId],
    skipped: Option<TxnId>,
) -> Result<Deps, NoMemory>
    requires whole { IsRowTable numbers.now.entries rows.now stamp }
    requires rising { IsStrictlySortedBy txn_cmp ids.now }
    ensures { IfOk result (λ links. links ≡ links_within (links_past skipped (row_links rows.now)) ids.now ids.now) }
{
    let mut links = Deps::new(alloc);
    for id in ids {
        let row = told_row(numbers, rows, stamp, *id);
        let edges = edges_among(alloc, rows, row, ids, skipped)?;
        links.learn(*id, &edges)?;
    }
    Ok(links)
}

// The row of a transaction, where it has a list.
fn told_row<'a>(
    numbers: &HashMap<TxnId, usize>,
    rows: &'a [Row],
    stamp: u64,
    id: TxnId,
) -> Option<&'a Row>
    requires { IsRowTable numbers.now.entries rows.now stamp }
    ensures { entries_of (row_links rows.now) id ≡ followed_from rows.now (option_copied result) }
{
    match number_of(numbers, id) {
        Some(at) => told_row_at(rows, at),
        None => None,
    }
}

// The row at a number, where it has a list.
fn told_row_at(rows: &[Row], at: usize) -> Option<&Row>
    requires { at < length rows.now }
    ensures { option_copied result ≡ told_row (row_in rows.now at) }
{
    if_told(&rows[at])
}

// A row, where it has a list.
fn if_told(row: &Row) -> Option<&Row>
    ensures { option_copied result ≡ told_row row.now }
{
    if row.turn == 0 {
        return None;
    }
    Some(row)
}

// The entries that are followed from a row to one of the ids, which rise; none where there is no row.
fn edges_among(
    alloc: Global,
    rows: &[Row],
    row: Option<&Row>,
    ids: &[TxnId],
    skipped: Option<TxnId>,
) -> Result<Edges, NoMemory>
    requires { IsStrictlySortedBy txn_cmp ids.now }
    ensures { IfOk result (λ edges. edges ≡ among ids.now skipped (followed_from rows.now (option_copied row.entry))) }
{
    match row {
        None => Ok(Edges::new(alloc)),
        Some(row) => row_edges_among(alloc, rows, row, ids, skipped),
    }
}

// The same of a row that is there.
fn row_edges_among(
    alloc: Global,
    rows: &[Row],
    row: &Row,
    ids: &[TxnId],
    skipped: Option<TxnId>,
) -> Result<Edges, NoMemory>
    requires { IsStrictlySortedBy txn_cmp ids.now }
    ensures { IfOk result (λ edges. edges ≡ among ids.now skipped (followed rows.now row.now.edges row.now.names)) }
{
    let found = entries_among(
        alloc,
        rows,
        row.edges.as_slice(),
        row.names.as_slice(),
        ids,
        skipped,
    )?;
    let mut edges = Edges::new(alloc);
    edges.unite(&found)?;
    Ok(edges)
}

// The same of entries and their links, as they stand.
fn entries_among(
    alloc: Global,
    rows: &[Row],
    edges: &[Edge],
    links: &[Link],
    ids: &[TxnId],
    skipped: Option<TxnId>,
) -> Result<Vec<Edge>, NoMemory>
    requires { IsStrictlySortedBy txn_cmp ids.now }
    ensures { IfOk result (λ found. found.items ≡ among ids.now skipped (followed rows.now edges.now links.now)) }
{
    let mut found = Vec::new(alloc);
    for (edge, link) in edges.iter().zip(links) {
        if leads_among(rows, ids, skipped, *edge, *link) {
            found.push(*edge)?;
        }
    }
    Ok(found)
}

// Whether an entry names one of the ids, which rise, and not the one that is skipped, and its link is alive.
fn leads_among(rows: &[Row], ids: &[TxnId], skipped: Option<TxnId>, edge: Edge, link: Link) -> bool
    requires { IsStrictlySortedBy txn_cmp ids.now }
    ensures { result ≡ (is_listed is_txn ids.now edge.from && (not (is_skipped skipped edge.from) && is_alive rows.now link)) }
{
    if !is_among_rising(ids, edge.from()) {
        return false;
    }
    if is_skipped(skipped, edge.from()) {
        return false;
    }
    is_alive(rows, link)
}

// Whether an id is the one that is skipped.
fn is_skipped(skipped: Option<TxnId>, id: TxnId) -> bool
    ensures { result ≡ is_skipped skipped id }
{
    match skipped {
        Some(other) => id == other,
        None => false,
    }
}
