//! Rows together with their marks and bits: lists come and are taken back, and transactions are decided and go.
ghost use Rattle.std.specs.Prelude.{◌≡◌, ◌⊎◌, ◌<◌, ◌≤◌, ◌+◌, ◌&&◌, ◌∷◌, ◌++◌, [], ℕ, true, false, not, map, length, None, Some, IfOk, OnOk, OnErr};
ghost use Rattle.std.specs.Vec.{vec_capacity, vec_len};
ghost use Rattle.std.specs.List.Sorted.{IsStrictlySortedBy};
ghost use Rattle.roc_sequence.specs.Lists.{Has};
ghost use Rattle.std.specs.Map.{lookup};
ghost use Rattle.roc_sequence.specs.Places.{IsListed, is_listed};
ghost use Rattle.roc_base.specs.declared.id.TxnId.{TxnId as Id};
ghost use Rattle.roc_base.specs.TxnId.{is_txn, txn_cmp};
ghost use Rattle.roc_depgraph.specs.declared.known.KnownList.{KnownList as Known};
ghost use Rattle.roc_depgraph.specs.Deps.{list_of};
ghost use Rattle.roc_step.specs.Learning.{AreLearnable};
ghost use Rattle.roc_step.specs.Links.{without_links};
ghost use Rattle.roc_step.specs.New.{AreAllNew};
ghost use Rattle.roc_server_rows.specs.Changes.{lists_ended, untold, with_list};
ghost use Rattle.roc_server_table.specs.Inner.Changes.{all_ended, all_untold};
ghost use Rattle.roc_server_rows.specs.Rows.{known_of, row_links, lists_by, Grows, AreWhole};
ghost use Rattle.roc_server_rows.specs.Marks.{no_mark, mark_in, AreMarked, AreOpen, IsLearnt, IsOut, IsTakenBack};
ghost use Rattle.roc_server_table.specs.Inner.Leading.{AreBits, AreKept, LeadsBut};
ghost use Rattle.roc_server_table.specs.Inner.Kept.{decided_of, table_of, AreDecidedToo, IsDecidedAt, IsFilled, IsKept, Settles};

use crate::leading::note_row;
use roc_base::{Edge, Edges, NoMemory, TxnId};
use roc_depgraph::KnownList;
use roc_server_reach::BitRows;
use roc_server_rows::{
    Mark, Parts, Row, cut_rows, end_marked, is_told, keep_open, learn, mark_of, no_mark, number_of,
    open_row, untell, wake_all,
};
use std::collections::HashMap;

// ---- lists come

// Learns lists that can be learnt one after another. The entries that name one of `done`, which rise, are not followed. `NoMemory` leaves the lists
// and what is decided as they were.
pub(crate) fn learn_all(
    parts: &mut Parts,
    marks: &mut Vec<Mark>,
    bits: &mut BitRows,
    news: &[KnownList],
    done: &[TxnId],
) -> Result<(), NoMemory>
    requires kept { AreKept parts.old marks.old.items bits.old }
    requires learnable { AreLearnable (known_of parts.old.rows.items) news.now }
    requires rising { IsStrictlySortedBy txn_cmp done.now }
    ensures kept { AreKept parts.new marks.new.items bits.new }
    ensures known { OnOk result (known_of parts.new.rows.items ≡ known_of parts.old.rows.items ++ news.now) }
    ensures links { OnOk result (row_links parts.new.rows.items ≡ row_links parts.old.rows.items ++ map (without_links (is_listed is_txn done.now)) news.now) }
    ensures decided { OnOk result (decided_of parts.new.rows.items marks.new.items ≡ decided_of parts.old.rows.items marks.old.items) }
    ensures err { OnErr result (table_of parts.new.rows.items marks.new.items ≡ table_of parts.old.rows.items marks.old.items) }
{
    for at in 0..news.len() {
        let k = &news[at];
        if let Err(fault) = learn_noted(parts, marks, bits, k.of, &k.edges, done) {
            unlearn_all(parts, marks, bits, &news[..at]);
            return Err(fault);
        }
    }
    Ok(())
}

// Learns one list, of a transaction of which none is known, and notes where its row leads.
fn learn_noted(
    parts: &mut Parts,
    marks: &mut Vec<Mark>,
    bits: &mut BitRows,
    id: TxnId,
    edges: &Edges,
    done: &[TxnId],
) -> Result<(), NoMemory>
    requires kept { AreKept parts.old marks.old.items bits.old }
    requires unknown { list_of id (known_of parts.old.rows.items) ≡ None }
    requires rising { IsStrictlySortedBy txn_cmp done.now }
    ensures kept { AreKept parts.new marks.new.items bits.new }
    ensures ok { OnOk result (lists_by parts.new.rows.items ≡ with_list done.now id edges.now (lists_by parts.old.rows.items)) }
    ensures err { OnErr result (lists_by parts.new.rows.items ≡ lists_by parts.old.rows.items) }
    ensures decided { decided_of parts.new.rows.items marks.new.items ≡ decided_of parts.old.rows.items marks.old.items }
{
    match learn_marked(parts, marks, id, edges, done) {
        Ok(at) => {
            if let Err(fault) = note_row(parts, bits, at) {
                unlearn_one(parts, marks, id);
                return Err(fault);
            }
            Ok(())
        }
        Err(fault) => Err(fault),
    }
}

// Learns one list: the number of its row.
fn learn_marked(
    parts: &mut Parts,
    marks: &mut Vec<Mark>,
    id: TxnId,
    edges: &Edges,
    done: &[TxnId],
) -> Result<usize, NoMemory>
    requires kept { IsKept parts.old marks.old.items }
    requires unknown { list_of id (known_of parts.old.rows.items) ≡ None }
    requires rising { IsStrictlySortedBy txn_cmp done.now }
    ensures kept { IsKept parts.new marks.new.items }
    ensures ok { OnOk result (lists_by parts.new.rows.items ≡ with_list done.now id edges.now (lists_by parts.old.rows.items)) }
    ensures err { OnErr result (lists_by parts.new.rows.items ≡ lists_by parts.old.rows.items) }
    ensures learnt { IfOk result (IsLearnt parts.old parts.new) }
    ensures row { IfOk result (λ at. lookup (is_txn id) parts.new.numbers.entries ≡ Some at) }
    ensures grown { OnErr result (Grows parts.old.rows.items parts.new.rows.items parts.old.stamp parts.new.stamp) }
    ensures decided { decided_of parts.new.rows.items marks.new.items ≡ decided_of parts.old.rows.items marks.old.items }
{
    let edges = edges.clone()?;
    reserve(marks, &mut parts.undecided, edges.as_slice())?;
    match learn(parts, id, edges, done) {
        Ok(at) => {
            fill(marks, &parts.rows);
            open_row(marks, &mut parts.undecided, at);
            Ok(at)
        }
        Err(fault) => {
            fill(marks, &parts.rows);
            Err(fault)
        }
    }
}

// Takes the room for marks of all rows that may come with a list (its own, and one for each entry), and for one more undecided row.
fn reserve(
    marks: &mut Vec<Mark>,
    undecided: &mut Vec<usize>,
    edges: &[Edge],
) -> Result<(), NoMemory>
    ensures items { marks.new.items ≡ marks.old.items }
    ensures undecided { undecided.new.items ≡ undecided.old.items }
    ensures ok { OnOk result (length marks.new.items + length edges.now + 1 ≤ vec_capacity marks.new) }
    ensures room { OnOk result (vec_len undecided.new < vec_capacity undecided.new) }
{
    undecided.reserve(1)?;
    marks.reserve(edges.len() + 1)?;
    Ok(())
}

// Rows that came get marks, where there is room.
fn fill(marks: &mut Vec<Mark>, rows: &[Row])
    requires room { length rows.now ≤ vec_capacity marks.old }
    requires fewer { length marks.old.items ≤ length rows.now }
    ensures { IsFilled rows.now marks.old.items marks.new.items }
{
    'rows: while marks.len() < rows.len() {
        push_none(marks);
    }
}

fn push_none(marks: &mut Vec<Mark>)
    requires { vec_len marks.old < vec_capacity marks.old }
    ensures items { marks.new.items ≡ marks.old.items ++ no_mark ∷ [] }
    ensures capacity { vec_capacity marks.old ≤ vec_capacity marks.new }
{
    marks.push(no_mark()).unwrap();
}

// ---- and are taken back

// Takes the lists of transactions back of which none is decided. Takes no memory.
pub(crate) fn unlearn_all(
    parts: &mut Parts,
    marks: &mut [Mark],
    bits: &mut BitRows,
    news: &[KnownList],
)
    requires kept { AreKept parts.old marks.old bits.old }
    requires undecided { (k : Known) → Has k news.now → is_listed is_txn (decided_of parts.old.rows.items marks.old) k.of ≡ false }
    ensures kept { AreKept parts.new marks.new bits.new }
    ensures lists { lists_by parts.new.rows.items ≡ all_untold news.now (lists_by parts.old.rows.items) }
    ensures decided { decided_of parts.new.rows.items marks.new ≡ decided_of parts.old.rows.items marks.old }
{
    // What waited may have led over one of these lists.
    wake_all(marks, &parts.undecided);
    untell_all(parts, marks, bits, news);
}

// Takes lists back, where no row waits. It looks once at what is undecided.
fn untell_all(parts: &mut Parts, marks: &[Mark], bits: &mut BitRows, news: &[KnownList])
    requires kept { AreKept parts.old marks.now bits.old }
    requires awake { (n : ℕ) → (mark_in marks.now n).waits.birth ≡ 0 }
    requires undecided { (k : Known) → Has k news.now → is_listed is_txn (decided_of parts.old.rows.items marks.now) k.of ≡ false }
    ensures kept { AreKept parts.new marks.now bits.new }
    ensures lists { lists_by parts.new.rows.items ≡ all_untold news.now (lists_by parts.old.rows.items) }
    ensures decided { decided_of parts.new.rows.items marks.now ≡ decided_of parts.old.rows.items marks.now }
{
    for k in news {
        untell_noted(parts, bits, k.of);
    }
    keep_open(&mut parts.undecided, &parts.rows, marks);
}

// Takes one list back, and what was noted of its row.
fn untell_noted(parts: &mut Parts, bits: &mut BitRows, id: TxnId)
    requires whole { AreWhole parts.old }
    requires bits { AreBits parts.old.rows.items bits.old }
    ensures whole { AreWhole parts.new }
    ensures undecided { parts.new.undecided ≡ parts.old.undecided }
    ensures lists { lists_by parts.new.rows.items ≡ untold id (lists_by parts.old.rows.items) }
    ensures taken { (n : ℕ) → lookup (is_txn id) parts.old.numbers.entries ≡ Some n → IsTakenBack n parts.old.rows.items parts.new.rows.items }
    ensures same { lookup (is_txn id) parts.old.numbers.entries ≡ None → parts.new.rows.items ≡ parts.old.rows.items }
    ensures each { length parts.new.rows.items ≡ length parts.old.rows.items }
    ensures bits { AreBits parts.new.rows.items bits.new }
{
    match number_of(&parts.numbers, id) {
        Some(at) => {
            untell(parts, id);
            bits.clear_row(at);
        }
        None => untell(parts, id),
    }
}

// Takes one list back of whose row nothing was noted.
fn unlearn_one(parts: &mut Parts, marks: &mut [Mark], id: TxnId)
    requires kept { IsKept parts.old marks.old }
    requires undecided { is_listed is_txn (decided_of parts.old.rows.items marks.old) id ≡ false }
    ensures kept { IsKept parts.new marks.new }
    ensures lists { lists_by parts.new.rows.items ≡ untold id (lists_by parts.old.rows.items) }
    ensures decided { decided_of parts.new.rows.items marks.new ≡ decided_of parts.old.rows.items marks.old }
    ensures taken { (n : ℕ) → lookup (is_txn id) parts.old.numbers.entries ≡ Some n → IsTakenBack n parts.old.rows.items parts.new.rows.items }
{
    wake_all(marks, &parts.undecided);
    untell_one(parts, marks, id);
}

fn untell_one(parts: &mut Parts, marks: &[Mark], id: TxnId)
    requires kept { IsKept parts.old marks.now }
    requires awake { (n : ℕ) → (mark_in marks.now n).waits.birth ≡ 0 }
    requires undecided { is_listed is_txn (decided_of parts.old.rows.items marks.now) id ≡ false }
    ensures kept { IsKept parts.new marks.now }
    ensures lists { lists_by parts.new.rows.items ≡ untold id (lists_by parts.old.rows.items) }
    ensures decided { decided_of parts.new.rows.items marks.now ≡ decided_of parts.old.rows.items marks.now }
    ensures taken { (n : ℕ) → lookup (is_txn id) parts.old.numbers.entries ≡ Some n → IsTakenBack n parts.old.rows.items parts.new.rows.items }
    ensures same { lookup (is_txn id) parts.old.numbers.entries ≡ None → parts.new.rows.items ≡ parts.old.rows.items }
{
    untell(parts, id);
    keep_open(&mut parts.undecided, &parts.rows, marks);
}

// ---- what is decided

// Whether a transaction is marked as decided.
pub(crate) fn is_decided(parts: &Parts, marks: &[Mark], id: TxnId) -> bool
    requires { IsKept parts.now marks.now }
    ensures { result ≡ is_listed is_txn (decided_of parts.now.rows.items marks.now) id }
{
    match number_of(&parts.numbers, id) {
        Some(at) => mark_of(marks, at).decided,
        None => false,
    }
}

// Marks all transactions as decided that are so and were not marked. Takes no memory.
pub(crate) fn decide_all(parts: &mut Parts, marks: &mut [Mark], ids: &[TxnId])
    requires kept { IsKept parts.old marks.old }
    requires new { AreAllNew (IsListed is_txn (decided_of parts.old.rows.items marks.old)) (row_links parts.old.rows.items) ids.now }
    ensures kept { IsKept parts.new marks.new }
    ensures rows { parts.new.rows ≡ parts.old.rows }
    ensures decided { (t : Id) → is_listed is_txn (decided_of parts.old.rows.items marks.new) t ≡ is_listed is_txn (decided_of parts.old.rows.items marks.old ++ ids.now) t }
{
    mark_all(&parts.numbers, marks, ids);
    keep_open(&mut parts.undecided, &parts.rows, marks);
}

fn mark_all(numbers: &HashMap<TxnId, usize>, marks: &mut [Mark], ids: &[TxnId])
    ensures { AreDecidedToo numbers.now.entries ids.now marks.old marks.new }
{
    for id in ids {
        mark_one(numbers, marks, *id);
    }
}

fn mark_one(numbers: &HashMap<TxnId, usize>, marks: &mut [Mark], id: TxnId)
    ensures { AreDecidedToo numbers.now.entries (id ∷ []) marks.old marks.new }
{
    if let Some(at) = number_of(numbers, id) {
        mark_row(marks, at);
    }
}

fn mark_row(marks: &mut [Mark], at: usize)
    ensures { IsDecidedAt at marks.old marks.new }
{
    if at < marks.len() {
        marks[at].decided = true;
    }
}

// ---- what goes

// The entries that name a transaction are done. Takes no memory.
pub(crate) fn settle_kept(parts: &mut Parts, marks: &mut [Mark], bits: &mut BitRows, id: TxnId)
    requires { AreKept parts.old marks.old bits.old }
    ensures kept { AreKept parts.new marks.new bits.new }
    ensures known { known_of parts.new.rows.items ≡ known_of parts.old.rows.items }
    ensures links { row_links parts.new.rows.items ≡ map (without_links (λ t. is_txn t id)) (row_links parts.old.rows.items) }
    ensures decided { decided_of parts.new.rows.items marks.new ≡ decided_of parts.old.rows.items marks.old }
{
    if let Some(at) = number_of(&parts.numbers, id) {
        settle_at(parts, marks, id, at);
        bits.clear_column(at);
    }
}

// The entries that name the transaction of a row are done. Its own list, where it has one, stays. Takes no memory: where it has a list it looks at
// all others, and else at those alone that are not decided.
fn settle_at(parts: &mut Parts, marks: &mut [Mark], id: TxnId, at: usize)
    requires whole { AreWhole parts.old }
    requires marked { AreMarked parts.old.rows.items marks.old }
    requires undecided { AreOpen parts.old.rows.items marks.old parts.old.undecided.items }
    requires here { lookup (is_txn id) parts.old.numbers.entries ≡ Some at }
    ensures whole { AreWhole parts.new }
    ensures settled { Settles id parts.old.rows.items parts.new.rows.items marks.old marks.new }
    ensures undecided { AreOpen parts.new.rows.items marks.new parts.new.undecided.items }
    ensures leads { LeadsBut at parts.old.rows.items parts.new.rows.items }
{
    if is_told(&parts.rows, at) {
        cut_rows(&mut parts.rows, at);
        wake_all(marks, &parts.undecided);
        return;
    }
    end_marked(parts, marks, id);
}

// Ends the rows of transactions that are decided. Takes no memory, and looks at no other list.
pub(crate) fn end_all(parts: &mut Parts, marks: &mut [Mark], bits: &mut BitRows, ids: &[TxnId])
    requires kept { AreKept parts.old marks.old bits.old }
    requires decided { (t : Id) → IsListed is_txn ids.now t → is_listed is_txn (decided_of parts.old.rows.items marks.old) t ≡ true }
    ensures kept { AreKept parts.new marks.new bits.new }
    ensures lists { lists_by parts.new.rows.items ≡ all_ended ids.now (lists_by parts.old.rows.items) }
    ensures decided { (t : Id) → is_listed is_txn (decided_of parts.new.rows.items marks.new) t
        ≡ (is_listed is_txn (decided_of parts.old.rows.items marks.old) t && not (is_listed is_txn ids.now t)) }
{
    for id in ids {
        end_noted(parts, marks, bits, *id);
    }
}

// Ends the row of a transaction that is decided or has no list, and what was noted of it.
fn end_noted(parts: &mut Parts, marks: &mut [Mark], bits: &mut BitRows, id: TxnId)
    requires kept { AreKept parts.old marks.old bits.old }
    requires may { (list_of id (known_of parts.old.rows.items) ≡ None) ⊎ (is_listed is_txn (decided_of parts.old.rows.items marks.old) id ≡ true) }
    ensures kept { AreKept parts.new marks.new bits.new }
    ensures lists { lists_by parts.new.rows.items ≡ lists_ended id (lists_by parts.old.rows.items) }
    ensures decided { (t : Id) → is_listed is_txn (decided_of parts.new.rows.items marks.new) t ≡ (is_listed is_txn (decided_of parts.old.rows.items marks.old) t && not (is_txn t id)) }
{
    match number_of(&parts.numbers, id) {
        Some(at) => {
            end_one(parts, marks, id);
            bits.end(at);
        }
        None => end_one(parts, marks, id),
    }
}

fn end_one(parts: &mut Parts, marks: &mut [Mark], id: TxnId)
    requires kept { IsKept parts.old marks.old }
    requires may { (list_of id (known_of parts.old.rows.items) ≡ None) ⊎ (is_listed is_txn (decided_of parts.old.rows.items marks.old) id ≡ true) }
    ensures kept { IsKept parts.new marks.new }
    ensures lists { lists_by parts.new.rows.items ≡ lists_ended id (lists_by parts.old.rows.items) }
    ensures decided { (t : Id) → is_listed is_txn (decided_of parts.new.rows.items marks.new) t ≡ (is_listed is_txn (decided_of parts.old.rows.items marks.old) t && not (is_txn t id)) }
    ensures out { (n : ℕ) → lookup (is_txn id) parts.old.numbers.entries ≡ Some n → IsOut n parts.old.rows.items parts.new.rows.items }
    ensures same { lookup (is_txn id) parts.old.numbers.entries ≡ None → parts.new.rows.items ≡ parts.old.rows.items }
{
    end_marked(parts, marks, id);
}
