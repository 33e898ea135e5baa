//! Rows by number.
ghost use Rattle.std.specs.Prelude.{◌≡◌, ℕ, ◌<◌, ◌≤◌, ◌+◌, ◌==◌, [], filter, length, map, not, None, Some, IfOk, OnOk, OnErr, option_copied};
ghost use Rattle.std.specs.Map.{lookup};
ghost use Rattle.std.specs.List.Sorted.{IsStrictlySortedBy};
ghost use Rattle.roc_sequence.specs.Places.{is_listed};
ghost use Rattle.roc_base.specs.TxnId.{is_txn, txn_cmp};
ghost use Rattle.roc_depgraph.specs.Deps.{list_of};
ghost use Rattle.roc_server_rows.specs.Changes.{lists_ended, untold, with_list};
ghost use Rattle.roc_server_rows.specs.Marks.{IsLearnt, IsOut, IsTakenBack};
ghost use Rattle.roc_step.specs.Links.{all_entries, least_naming};
ghost use Rattle.roc_server_rows.specs.Inner.Rows.{GrowsTo, IsLinkFor, told_entries, told_list};
ghost use Rattle.roc_server_rows.specs.Except.{no_link};
ghost use Rattle.roc_server_rows.specs.Rows.{row_in, AreNamed, Grows, IsRowOf, IsRowTable, AreWhole, followed, known_of, lists_by};

use crate::free_rows::{FreeRows, no_free, place};
use roc_base::{Edge, Edges, NoMemory, TxnId};
use roc_depgraph::is_among_rising;
use roc_sequence::Sequence;
use std::alloc::Global;
use std::collections::HashMap;

/// The row of what a link names, and the birth of that. A birth of 0 is of nothing: the entry is done.
#[derive(Clone, Copy)]
pub struct Link {
    pub at: usize,
    pub birth: u64,
}

/// A link of nothing.
pub(crate) fn no_link() -> Link
    ensures { result ≡ no_link }
{
    Link { at: 0, birth: 0 }
}

/// What is kept of a transaction. A row without a birth is free; one without a turn has no list.
#[derive(Drop)]
pub struct Row {
    pub id: TxnId,
    /// Given once to one row: no other ever had it, or will.
    pub birth: u64,
    /// When its list came; lists that came later have greater ones.
    pub turn: u64,
    pub edges: Edges,
    /// The link of each entry.
    pub names: Sequence<Link>,
    /// The free row behind this one in its chain, where it is free.
    pub next: usize,
}

/// The rows, the number of each transaction that has one, the numbers of those that have a list and are not decided, the free rows, and the next birth
/// or turn. The free rows are two chains, so that the number of a row that ended comes back late: bits of numbers that ended are cleared out of all
/// rows of bits once one of these numbers is named again, and so of many numbers at once. Who changes marks keeps `undecided`: what is here changes it
/// nowhere but in [`open_row`](crate::open_row) and [`keep_open`](crate::keep_open).
#[derive(Drop)]
pub struct Parts {
    pub alloc: Global,
    pub numbers: HashMap<TxnId, usize>,
    pub rows: Vec<Row>,
    pub undecided: Vec<usize>,
    free: FreeRows,
    pub stamp: u64,
}

/// No rows. Takes no memory.
pub fn none(alloc: Global) -> Parts
    ensures whole { AreWhole result }
    ensures rows { result.rows.items ≡ [] }
    ensures undecided { result.undecided.items ≡ [] }
{
    Parts {
        alloc,
        numbers: HashMap::new(alloc),
        rows: Vec::new(alloc),
        undecided: Vec::new(alloc),
        free: no_free(),
        stamp: 1,
    }
}

/// The number of the row of a transaction, where it has one. Takes no memory.
pub fn number_of(numbers: &HashMap<TxnId, usize>, id: TxnId) -> Option<usize>
    ensures { result ≡ lookup (is_txn id) numbers.now.entries }
{
    numbers.get(&id).copied()
}

/// The transaction of the row at a number, and the first of all ids where there is no row. Takes no memory.
pub fn id_at(rows: &[Row], at: usize) -> TxnId
    ensures { result ≡ (row_in rows.now at).id }
{
    match rows.get(at) {
        Some(row) => row.id,
        None => TxnId { coord: 0, seq: 0 },
    }
}

/// The transactions of rows, in the order of these numbers. `NoMemory` comes where there is none for them.
pub fn ids_at(alloc: Global, rows: &[Row], numbers: &[usize]) -> Result<Vec<TxnId>, NoMemory>
    ensures { IfOk result (λ ids. ids.items ≡ map (λ n. (row_in rows.now n).id) numbers.now) }
{
    let mut ids = Vec::new(alloc);
    for at in numbers {
        ids.push(id_at(rows, *at))?;
    }
    Ok(ids)
}

// The link to the row of a transaction; one is made where it has none.
fn link_to(parts: &mut Parts, id: TxnId) -> Result<Link, NoMemory>
    requires whole { AreWhole parts.old }
    ensures whole { AreWhole parts.new }
    ensures undecided { parts.new.undecided ≡ parts.old.undecided }
    ensures grows { GrowsTo parts.old parts.new }
    ensures no_fewer { length parts.old.rows.items ≤ length parts.new.rows.items }
    ensures at_most { length parts.new.rows.items ≤ length parts.old.rows.items + 1 }
    ensures row { IfOk result (λ link. IsRowOf parts.new.rows.items link.at id) }
    ensures birth { IfOk result (λ link. (row_in parts.new.rows.items link.at).birth ≡ link.birth) }
{
    match number_of(&parts.numbers, id) {
        Some(at) => Ok(link_at(&parts.rows, at)),
        None => make(parts, id),
    }
}

// The link to the row at a number.
fn link_at(rows: &[Row], at: usize) -> Link
    requires { at < length rows.now }
    ensures at { result.at ≡ at }
    ensures birth { (row_in rows.now at).birth ≡ result.birth }
{
    Link {
        at,
        birth: rows[at].birth,
    }
}

// Makes the row of a transaction that has none.
fn make(parts: &mut Parts, id: TxnId) -> Result<Link, NoMemory>
    requires whole { AreWhole parts.old }
    requires absent { lookup (is_txn id) parts.old.numbers.entries ≡ None }
    ensures whole { AreWhole parts.new }
    ensures undecided { parts.new.undecided ≡ parts.old.undecided }
    ensures grows { GrowsTo parts.old parts.new }
    ensures no_fewer { length parts.old.rows.items ≤ length parts.new.rows.items }
    ensures at_most { length parts.new.rows.items ≤ length parts.old.rows.items + 1 }
    ensures row { IfOk result (λ link. IsRowOf parts.new.rows.items link.at id) }
    ensures birth { IfOk result (λ link. (row_in parts.new.rows.items link.at).birth ≡ link.birth) }
{
    let birth = parts.stamp;
    if birth == u64::MAX {
        return Err(NoMemory);
    }
    parts.numbers.reserve(1)?;
    parts.rows.reserve(1)?;
    parts.stamp = birth + 1;
    let row = unknown_row(parts.alloc, id, birth);
    let at = place(&mut parts.rows, &mut parts.free, row);
    let put: Result<_, _> = parts.numbers.insert(id, at);
    put.unwrap();
    Ok(Link { at, birth })
}

// The row of a transaction whose list is unknown.
fn unknown_row(alloc: Global, id: TxnId, birth: u64) -> Row
    ensures id { result.id ≡ id }
    ensures birth { result.birth ≡ birth }
    ensures turn { result.turn ≡ 0 }
    ensures edges { result.edges ≡ [] }
    ensures names { result.names ≡ [] }
{
    Row {
        id,
        birth,
        turn: 0,
        edges: Edges::new(alloc),
        names: Sequence::new(alloc),
        next: 0,
    }
}

// What entries name: but for those of some transactions, which rise, the row of each.
fn names_of(parts: &mut Parts, edges: &[Edge], done: &[TxnId]) -> Result<Sequence<Link>, NoMemory>
    requires whole { AreWhole parts.old }
    requires rising { IsStrictlySortedBy txn_cmp done.now }
    ensures whole { AreWhole parts.new }
    ensures undecided { parts.new.undecided ≡ parts.old.undecided }
    ensures grows { GrowsTo parts.old parts.new }
    ensures no_fewer { length parts.old.rows.items ≤ length parts.new.rows.items }
    ensures at_most { length parts.new.rows.items ≤ length parts.old.rows.items + length edges.now }
    ensures names { IfOk result (AreNamed parts.new.rows.items parts.new.stamp edges.now) }
    ensures followed { IfOk result (λ names. followed parts.new.rows.items edges.now names ≡ filter (λ d. not (is_listed is_txn done.now d.from)) edges.now) }
{
    let mut names = Vec::new(parts.alloc);
    names.reserve(edges.len())?;
    for edge in edges {
        let link = link_of(parts, edge.from(), done)?;
        names.push(link)?;
    }
    Ok(Sequence::from_vec(names))
}

// The link of an entry that names a transaction.
fn link_of(parts: &mut Parts, id: TxnId, done: &[TxnId]) -> Result<Link, NoMemory>
    requires whole { AreWhole parts.old }
    requires rising { IsStrictlySortedBy txn_cmp done.now }
    ensures whole { AreWhole parts.new }
    ensures undecided { parts.new.undecided ≡ parts.old.undecided }
    ensures grows { GrowsTo parts.old parts.new }
    ensures no_fewer { length parts.old.rows.items ≤ length parts.new.rows.items }
    ensures at_most { length parts.new.rows.items ≤ length parts.old.rows.items + 1 }
    ensures link { IfOk result (IsLinkFor parts.new.rows.items parts.new.stamp id (is_listed is_txn done.now id)) }
{
    if is_among_rising(done, id) {
        return Ok(no_link());
    }
    link_to(parts, id)
}

/// Learns a list of a transaction of which none is known, behind the others: the number of its row. Where it has none, and where what an entry names
/// has none, one is made. Entries that name one of `done`, which rise, get a link of nothing. `NoMemory` comes also where no birth or turn is left below
/// 2^64 - 1. It leaves rows that were made, without lists.
pub fn learn(parts: &mut Parts, id: TxnId, edges: Edges, done: &[TxnId]) -> Result<usize, NoMemory>
    requires whole { AreWhole parts.old }
    requires unknown { list_of id (known_of parts.old.rows.items) ≡ None }
    requires rising { IsStrictlySortedBy txn_cmp done.now }
    ensures whole { AreWhole parts.new }
    ensures undecided { parts.new.undecided ≡ parts.old.undecided }
    ensures ok { OnOk result (lists_by parts.new.rows.items ≡ with_list done.now id edges (lists_by parts.old.rows.items)) }
    ensures learnt { IfOk result (IsLearnt parts.old parts.new) }
    ensures row { IfOk result (λ at. lookup (is_txn id) parts.new.numbers.entries ≡ Some at) }
    ensures err { OnErr result (lists_by parts.new.rows.items ≡ lists_by parts.old.rows.items) }
    ensures grown { OnErr result (Grows parts.old.rows.items parts.new.rows.items parts.old.stamp parts.new.stamp) }
    ensures no_fewer { length parts.old.rows.items ≤ length parts.new.rows.items }
    ensures at_most { length parts.new.rows.items ≤ length parts.old.rows.items + length edges + 1 }
{
    let link = link_to(parts, id)?;
    let names = names_of(parts, edges.as_slice(), done)?;
    let turn = parts.stamp;
    if turn == u64::MAX {
        return Err(NoMemory);
    }
    parts.stamp = turn + 1;
    let row = Row {
        id,
        birth: link.birth,
        turn,
        edges,
        names,
        next: 0,
    };
    parts.rows[link.at] = row;
    Ok(link.at)
}

// Ends the row of a transaction, where it has one. Takes no memory, and looks at no other row.
pub(crate) fn end(parts: &mut Parts, id: TxnId)
    requires whole { AreWhole parts.old }
    ensures whole { AreWhole parts.new }
    ensures undecided { parts.new.undecided ≡ parts.old.undecided }
    ensures lists { lists_by parts.new.rows.items ≡ lists_ended id (lists_by parts.old.rows.items) }
    ensures out { (n : ℕ) → lookup (is_txn id) parts.old.numbers.entries ≡ Some n → IsOut n parts.old.rows.items parts.new.rows.items }
    ensures same { lookup (is_txn id) parts.old.numbers.entries ≡ None → parts.new.rows.items ≡ parts.old.rows.items }
    ensures each { length parts.new.rows.items ≡ length parts.old.rows.items }
{
    if let Some(at) = parts.numbers.remove(&id) {
        let mut row = unknown_row(parts.alloc, id, 0);
        row.next = parts.free.ended;
        parts.rows[at] = row;
        parts.free.ended = at;
        parts.free.many = parts.free.many.saturating_add(1);
    }
}

/// Takes the list of a transaction back, where one is known; entries that name it are followed still. Its row stays. Takes no memory.
pub fn untell(parts: &mut Parts, id: TxnId)
    requires whole { AreWhole parts.old }
    ensures whole { AreWhole parts.new }
    ensures undecided { parts.new.undecided ≡ parts.old.undecided }
    ensures lists { lists_by parts.new.rows.items ≡ untold id (lists_by parts.old.rows.items) }
    ensures taken { (n : ℕ) → lookup (is_txn id) parts.old.numbers.entries ≡ Some n → IsTakenBack n parts.old.rows.items parts.new.rows.items }
    ensures same { lookup (is_txn id) parts.old.numbers.entries ≡ None → parts.new.rows.items ≡ parts.old.rows.items }
    ensures each { length parts.new.rows.items ≡ length parts.old.rows.items }
{
    if let Some(at) = number_of(&parts.numbers, id) {
        let birth = link_at(&parts.rows, at).birth;
        let row = unknown_row(parts.alloc, id, birth);
        parts.rows[at] = row;
    }
}

/// The list of the row of a transaction, where it has one. Takes no memory, and looks at no other row.
pub fn list<'a>(
    numbers: &HashMap<TxnId, usize>,
    rows: &'a [Row],
    stamp: u64,
    id: TxnId,
) -> Option<&'a Edges>
    requires whole { IsRowTable numbers.now.entries rows.now stamp }
    ensures { option_copied result ≡ list_of id (known_of rows.now) }
{
    match number_of(numbers, id) {
        Some(at) => told_at(rows, at),
        None => None,
    }
}

// The list of the row at a number, where it has one.
fn told_at(rows: &[Row], at: usize) -> Option<&Edges>
    requires { at < length rows.now }
    ensures { option_copied result ≡ told_list (row_in rows.now at) }
{
    told(&rows[at])
}

// The list of a row, where it has one.
fn told(row: &Row) -> Option<&Edges>
    ensures { option_copied result ≡ told_list row.now }
{
    if row.turn == 0 {
        return None;
    }
    Some(&row.edges)
}

/// The least of a number and of the numbers of all shards at which entries of known lists name a transaction. It looks at each list. Takes no memory.
pub fn least_naming(rows: &[Row], id: TxnId, at: u16) -> u16
    ensures least { result ≡ least_naming id at (all_entries (known_of rows.now)) }
    ensures bound { result ≤ at }
{
    let mut least = at;
    for row in rows {
        least = least_at(row, id, least);
    }
    least
}

// The same of the entries of one row, where it has a list.
fn least_at(row: &Row, id: TxnId, at: u16) -> u16
    ensures { result ≡ least_naming id at (told_entries row.now) }
{
    if row.turn == 0 {
        return at;
    }
    least_in(&row.edges, id, at)
}

// The same of the entries of one list.
fn least_in(edges: &Edges, id: TxnId, at: u16) -> u16
    ensures { result ≡ least_naming id at edges.now }
{
    // A list rises, so one look finds all that it says of the transaction.
    let _rising = edges.as_slice();
    match edges.find(id) {
        Some(edge) => at.min(u16::from(edge.at().0)),
        None => at,
    }
}
