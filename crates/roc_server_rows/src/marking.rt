//! Rows that end with their marks, rows that get lists, and entries that are done.
ghost use Rattle.std.specs.Prelude.{◌≡◌, ◌<◌, ◌∷◌, ◌++◌, [], ℕ, None, Some, length, map, slice_index_or, slice_set};
ghost use Rattle.std.specs.Vec.{vec_capacity, vec_len};
ghost use Rattle.std.specs.Map.{lookup};
ghost use Rattle.roc_base.specs.TxnId.{is_txn};
ghost use Rattle.roc_server_rows.specs.Changes.{lists_ended};
ghost use Rattle.roc_server_rows.specs.Rows.{lists_by, AreWhole};
ghost use Rattle.roc_server_rows.specs.Except.{link_but, no_link, row_but, rows_but};
ghost use Rattle.roc_server_rows.specs.Inner.Marks.{Drops};
ghost use Rattle.roc_server_rows.specs.Marks.{AreMarked, AreOpen, EndsAt, HasWaiting, IsOut, MayEnd, Wakes};

use crate::marks::{Mark, is_told, no_mark, wake};
use crate::rows::{Link, Parts, Row, end, no_link, number_of};
use roc_base::TxnId;
use roc_sequence::Sequence;

/// Ends the row of a transaction that is decided or has no list. What waited at it is in question then. Takes no memory, and looks at no other row,
/// but at the marks of those that are undecided where it has no list.
pub fn end_marked(parts: &mut Parts, marks: &mut [Mark], id: TxnId)
    requires whole { AreWhole parts.old }
    requires marked { AreMarked parts.old.rows.items marks.old }
    requires undecided { AreOpen parts.old.rows.items marks.old parts.old.undecided.items }
    requires may { (n : ℕ) → lookup (is_txn id) parts.old.numbers.entries ≡ Some n → MayEnd parts.old.rows.items marks.old n }
    ensures whole { AreWhole parts.new }
    ensures marked { AreMarked parts.new.rows.items marks.new }
    ensures undecided { AreOpen parts.new.rows.items marks.new parts.new.undecided.items }
    ensures ends { EndsAt (lookup (is_txn id) parts.old.numbers.entries) parts.old.rows.items parts.new.rows.items marks.old marks.new }
    ensures lists { lists_by parts.new.rows.items ≡ lists_ended id (lists_by parts.old.rows.items) }
    ensures out { (n : ℕ) → lookup (is_txn id) parts.old.numbers.entries ≡ Some n → IsOut n parts.old.rows.items parts.new.rows.items }
    ensures same { lookup (is_txn id) parts.old.numbers.entries ≡ None → parts.new.rows.items ≡ parts.old.rows.items }
{
    match number_of(&parts.numbers, id) {
        Some(at) => {
            drop_mark(&parts.rows, marks, &parts.undecided, at);
            end(parts, id);
        }
        None => end(parts, id),
    }
}

// Takes back the mark of a row, and wakes those that wait at it.
fn drop_mark(rows: &[Row], marks: &mut [Mark], undecided: &[usize], at: usize)
    requires marked { AreMarked rows.now marks.old }
    requires waiting { HasWaiting marks.old undecided.now }
    ensures { Drops at marks.old marks.new }
{
    wake_at_row(rows, marks, undecided, at);
    if at < marks.len() {
        marks[at] = no_mark();
    }
}

// Those that wait at a row wait no longer. At one with a list none waits, so it looks at no mark then.
fn wake_at_row(rows: &[Row], marks: &mut [Mark], undecided: &[usize], at: usize)
    requires marked { AreMarked rows.now marks.old }
    requires waiting { HasWaiting marks.old undecided.now }
    ensures { Wakes at marks.old marks.new }
{
    if is_told(rows, at) {
        return;
    }
    wake(marks, undecided, at);
}

/// A row got a list: it is undecided, and what waited at it is in question. Takes no memory.
pub fn open_row(marks: &mut [Mark], undecided: &mut Vec<usize>, at: usize)
    requires room { vec_len undecided.old < vec_capacity undecided.old }
    requires waiting { HasWaiting marks.old undecided.old.items }
    ensures undecided { undecided.new.items ≡ undecided.old.items ++ at ∷ [] }
    ensures wakes { Wakes at marks.old marks.new }
{
    wake(marks, undecided.as_slice(), at);
    undecided.push(at).unwrap();
}

/// All links to the row at a number are done. It looks at all links of all rows. Takes no memory.
pub fn cut_rows(rows: &mut Vec<Row>, at: usize)
    ensures { rows.new.items ≡ rows_but (Some at) rows.old.items }
{
    for place in 0..rows.len() {
        cut_row(&mut rows[place], at);
    }
}

fn cut_row(row: &mut Row, at: usize)
    ensures { row.new ≡ row_but (Some at) row.old }
{
    cut_names(&mut row.names, at);
}

fn cut_names(names: &mut Sequence<Link>, at: usize)
    ensures { names.new ≡ map (link_but (Some at)) names.old }
{
    for place in 0..names.len() {
        cut_name(names, at, place);
    }
}

fn cut_name(names: &mut Sequence<Link>, at: usize, place: usize)
    requires { place < length names.old }
    ensures { names.new ≡ slice_set names.old place (link_but (Some at) (slice_index_or names.old place no_link)) }
{
    let link = cut_link(names.as_slice()[place], at);
    names.set(place, link);
}

fn cut_link(link: Link, at: usize) -> Link
    ensures { result ≡ link_but (Some at) link }
{
    if link.at == at {
        return no_link();
    }
    link
}
