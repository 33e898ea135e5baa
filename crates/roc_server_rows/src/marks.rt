//! Which rows are decided, and at which row without a list the others wait.
ghost use Rattle.std.specs.Prelude.{◌≡◌, ◌≢◌, ◌⊎◌, ◌++◌, ◌∷◌, [], ◌<◌, ℕ, List, true, filter, length, nat_lt, not, IfOk, OnOk, if◌then◌else◌};
ghost use Rattle.std.specs.List.{AllByRecursion};
ghost use Rattle.roc_base.specs.declared.id.TxnId.{TxnId as Id};
ghost use Rattle.roc_server_rows.specs.Rows.{row_in, is_alive, is_told, IsRowTable};
ghost use Rattle.roc_server_rows.specs.Except.{is_except, link_but, rows_but, IsExceptLive};
ghost use Rattle.roc_server_rows.specs.Marks.{no_mark, mark_in, is_open, AreMarked, AreNewRowsBut, AreOpen, AreSameDecided, HasWaiting, IsOpen, Wakes, WakesAll};
ghost use Rattle.roc_server_rows.specs.Inner.Marks.{is_in_question, AreInQuestion, FindsNew, Holds, HoldsAll, HoldsSome, IsHeldBy, IsHeldThrough, WaitsNewly};
ghost use Rattle.roc_server_rows.specs.Inner.Marks.{IsAwake, IsChangedAt, IsWokenAt, WakesFor};

use crate::rows::{Link, Row, no_link};
use roc_base::NoMemory;
use std::alloc::Global;

/// Whether a row is decided, and else what without a list it leads to. A birth of 0 is of nothing: it is decided, in question or without a list.
#[derive(Clone, Copy)]
pub struct Mark {
    pub decided: bool,
    pub waits: Link,
}

/// Whether what a link names is there still. Takes no memory.
pub fn is_alive(rows: &[Row], link: Link) -> bool
    ensures { result ≡ is_alive rows.now link }
{
    if link.birth == 0 {
        return false;
    }
    match rows.get(link.at) {
        Some(row) => row.birth == link.birth,
        None => false,
    }
}

/// Whether there is a row at a number, and it has a list. Takes no memory.
pub fn is_told(rows: &[Row], at: usize) -> bool
    ensures { result ≡ is_told (row_in rows.now at) }
{
    match rows.get(at) {
        Some(row) => row.turn > 0,
        None => false,
    }
}

// Whether a row is the one to which no link is followed.
fn is_except(except: Option<usize>, at: usize) -> bool
    ensures { result ≡ is_except except at }
{
    match except {
        Some(row) => at == row,
        None => false,
    }
}

// Whether a link is followed: what it names is there still, and is not that row.
fn is_followed(rows: &[Row], except: Option<usize>, link: Link) -> bool
    ensures { result ≡ is_alive rows.now (link_but except link) }
{
    if is_except(except, link.at) {
        return false;
    }
    is_alive(rows, link)
}

// What a link leads to that has no list, by what is marked.
fn held_through(rows: &[Row], marks: &[Mark], except: Option<usize>, link: Link) -> Link
    requires { AreMarked (rows_but except rows.now) marks.now }
    ensures { IsHeldThrough (rows_but except rows.now) marks.now (link_but except link) result }
{
    if is_followed(rows, except, link) {
        return held_at(rows, marks, except, link);
    }
    no_link()
}

// The same of a link that is followed.
fn held_at(rows: &[Row], marks: &[Mark], except: Option<usize>, link: Link) -> Link
    requires marked { AreMarked (rows_but except rows.now) marks.now }
    requires followed { is_alive rows.now (link_but except link) ≡ true }
    ensures { IsHeldThrough (rows_but except rows.now) marks.now (link_but except link) result }
{
    if is_told(rows, link.at) {
        return mark_of(marks, link.at).waits;
    }
    link
}

/// The mark of a row; one that has none is not decided and waits at none. Takes no memory.
pub fn mark_of(marks: &[Mark], at: usize) -> Mark
    ensures { result ≡ mark_in marks.now at }
{
    match marks.get(at) {
        Some(mark) => *mark,
        None => no_mark(),
    }
}

/// The mark of what is not decided and waits at none.
pub fn no_mark() -> Mark
    ensures { result ≡ no_mark }
{
    Mark {
        decided: false,
        waits: no_link(),
    }
}

// What a row leads to that has no list.
fn held_by(rows: &[Row], marks: &[Mark], except: Option<usize>, at: usize) -> Link
    requires marked { AreMarked (rows_but except rows.now) marks.now }
    requires told { is_told (row_in rows.now at) ≡ true }
    ensures { IsHeldBy (rows_but except rows.now) marks.now at result }
{
    match rows.get(at) {
        Some(row) => held_among(rows, marks, except, at, row.names.as_slice()),
        None => no_link(),
    }
}

// The same, where these are its links.
fn held_among(
    rows: &[Row],
    marks: &[Mark],
    except: Option<usize>,
    at: usize,
    links: &[Link],
) -> Link
    requires marked { AreMarked (rows_but except rows.now) marks.now }
    requires told { is_told (row_in rows.now at) ≡ true }
    requires links { links.now ≡ (row_in rows.now at).names }
    ensures { IsHeldBy (rows_but except rows.now) marks.now at result }
{
    for link in links {
        let waits = held_through(rows, marks, except, *link);
        if waits.birth > 0 {
            return waits;
        }
    }
    no_link()
}

// Looks at a row in question, and marks at what it waits, where it does.
fn hold(rows: &[Row], marks: &mut [Mark], except: Option<usize>, at: usize) -> bool
    requires marked { AreMarked (rows_but except rows.now) marks.old }
    requires todo { IsOpen (rows_but except rows.now) marks.old at }
    ensures { Holds (rows_but except rows.now) marks.old marks.new at result }
{
    if marks[at].waits.birth > 0 {
        return false;
    }
    let waits = held_by(rows, marks, except, at);
    if waits.birth == 0 {
        return false;
    }
    marks[at].waits = waits;
    true
}

// Looks at rows in question, one after another, and tells whether one of them waits now.
fn hold_some(rows: &[Row], marks: &mut [Mark], except: Option<usize>, todo: &[usize]) -> bool
    requires marked { AreMarked (rows_but except rows.now) marks.old }
    requires todo { AllByRecursion (IsOpen (rows_but except rows.now) marks.old) todo.now }
    ensures { HoldsSome (rows_but except rows.now) marks.old marks.new todo.now result }
{
    let mut changed = false;
    for at in todo {
        let held = hold(rows, marks, except, *at);
        changed = held | changed;
    }
    changed
}

// Looks at rows in question until none of them waits newly.
fn hold_all(rows: &[Row], marks: &mut [Mark], except: Option<usize>, todo: &[usize])
    requires marked { AreMarked (rows_but except rows.now) marks.old }
    requires todo { AllByRecursion (IsOpen (rows_but except rows.now) marks.old) todo.now }
    ensures { HoldsAll (rows_but except rows.now) marks.old marks.new todo.now }
{
    let mut changed = true;
    'turns: while changed {
        changed = hold_some(rows, marks, except, todo);
    }
}

// Those of the rows that wait at none.
fn free_among(alloc: Global, marks: &[Mark], todo: &[usize]) -> Result<Vec<usize>, NoMemory>
    requires { AllByRecursion (λ n. n < length marks.now) todo.now }
    ensures { IfOk result (λ free. free.items ≡ filter (λ n. not (nat_lt 0 (mark_in marks.now n).waits.birth)) todo.now) }
{
    let mut free = Vec::new(alloc);
    for at in todo {
        if marks[*at].waits.birth == 0 {
            free.push(*at)?;
        }
    }
    Ok(free)
}

// Whether a row is in question: it has a list, is not decided and waits at none.
fn is_in_question(rows: &[Row], marks: &[Mark], at: usize) -> bool
    ensures { result ≡ is_in_question rows.now marks.now at }
{
    let mark = mark_of(marks, at);
    if mark.decided {
        return false;
    }
    if mark.waits.birth > 0 {
        return false;
    }
    is_told(rows, at)
}

// Adds a row where it is in question.
fn push_question(
    todo: &mut Vec<usize>,
    rows: &[Row],
    marks: &[Mark],
    at: usize,
) -> Result<(), NoMemory>
    ensures { OnOk result (todo.new.items ≡ todo.old.items ++ (if is_in_question rows.now marks.now at then at ∷ [] else [])) }
{
    if !is_in_question(rows, marks, at) {
        return Ok(());
    }
    todo.push(at)?;
    Ok(())
}

// Those of some rows that are in question, in their order.
fn all_in_question(
    alloc: Global,
    rows: &[Row],
    marks: &[Mark],
    undecided: &[usize],
) -> Result<Vec<usize>, NoMemory>
    ensures { IfOk result (λ todo. todo.items ≡ filter (is_in_question rows.now marks.now) undecided.now) }
{
    let mut todo = Vec::new(alloc);
    for at in undecided {
        push_question(&mut todo, rows, marks, *at)?;
    }
    Ok(todo)
}

// Finds which of all rows in question are decided. Marks at what the others wait.
fn decided_among(
    alloc: Global,
    rows: &[Row],
    marks: &mut [Mark],
    except: Option<usize>,
    todo: &[usize],
) -> Result<Vec<usize>, NoMemory>
    requires marked { AreMarked (rows_but except rows.now) marks.old }
    requires todo { AreInQuestion (rows_but except rows.now) marks.old todo.now }
    ensures marked { AreMarked (rows_but except rows.now) marks.new }
    ensures each { length marks.new ≡ length marks.old }
    ensures same { AreSameDecided marks.old marks.new }
    ensures waiting { WaitsNewly (rows_but except rows.now) marks.old marks.new }
    ensures new { IfOk result (λ ns. FindsNew (rows_but except rows.now) marks.old ns.items) }
{
    hold_all(rows, marks, except, todo);
    free_among(alloc, marks, todo)
}

/// Finds what is decided and was not marked so, where links to the row `except` are not followed. Marks at what the others wait, which is right
/// where all links are followed, too. Takes at most one turn more over the rows in question than rows come to wait. `NoMemory` comes where there is
/// none for the numbers of these rows.
pub fn newly(
    alloc: Global,
    rows: &[Row],
    marks: &mut [Mark],
    undecided: &[usize],
    except: Option<usize>,
) -> Result<Vec<usize>, NoMemory>
    requires marked { AreMarked rows.now marks.old }
    requires undecided { AreOpen rows.now marks.old undecided.now }
    requires live { IsExceptLive except rows.now }
    ensures marked { AreMarked rows.now marks.new }
    ensures undecided { AreOpen rows.now marks.new undecided.now }
    ensures each { length marks.new ≡ length marks.old }
    ensures same { AreSameDecided marks.old marks.new }
    ensures new { IfOk result (λ ns. (numbers : List (Id × ℕ)) (stamp : ℕ) → IsRowTable numbers rows.now stamp → AreNewRowsBut except rows.now marks.old ns.items) }
{
    wake_aside(rows, marks, undecided, except);
    match all_in_question(alloc, rows, marks, undecided) {
        Ok(todo) => decided_among(alloc, rows, marks, except, &todo),
        Err(fault) => Err(fault),
    }
}

// Wakes what waits at the row to which no link is followed, or may wait over it.
fn wake_aside(rows: &[Row], marks: &mut [Mark], undecided: &[usize], except: Option<usize>)
    requires marked { AreMarked rows.now marks.old }
    requires undecided { HasWaiting marks.old undecided.now }
    ensures marked { AreMarked (rows_but except rows.now) marks.new }
    ensures each { length marks.new ≡ length marks.old }
    ensures same { AreSameDecided marks.old marks.new }
    ensures waiting { WaitsNewly rows.now marks.old marks.new }
{
    match except {
        Some(at) => wake_for(rows, marks, undecided, at),
        None => {}
    }
}

// Wakes what waits at a row, and all where it has a list.
fn wake_for(rows: &[Row], marks: &mut [Mark], undecided: &[usize], at: usize)
    requires { HasWaiting marks.old undecided.now }
    ensures { WakesFor rows.now at marks.old marks.new }
{
    if is_told(rows, at) {
        wake_all(marks, undecided);
        return;
    }
    wake(marks, undecided, at);
}

// Those that wait at a row wait no longer. It looks at these rows alone.
pub(crate) fn wake(marks: &mut [Mark], undecided: &[usize], at: usize)
    requires { HasWaiting marks.old undecided.now }
    ensures { Wakes at marks.old marks.new }
{
    for place in undecided {
        wake_at(marks, *place, at);
    }
}

fn wake_at(marks: &mut [Mark], place: usize, at: usize)
    ensures { IsChangedAt (IsWokenAt at) place marks.old marks.new }
{
    if place < marks.len() {
        wake_one(&mut marks[place], at);
    }
}

fn wake_one(mark: &mut Mark, at: usize)
    ensures decided { mark.new.decided ≡ mark.old.decided }
    ensures woken { (mark.new.waits.birth ≡ 0) ⊎ ((mark.new.waits ≡ mark.old.waits) × (mark.old.waits.at ≢ at)) }
{
    if mark.waits.at == at {
        mark.waits = no_link();
    }
}

/// None waits any longer: all that has a list and is not decided is in question. It looks at these rows alone. Takes no memory.
pub fn wake_all(marks: &mut [Mark], undecided: &[usize])
    requires { HasWaiting marks.old undecided.now }
    ensures { WakesAll marks.old marks.new }
{
    for place in undecided {
        awaken(marks, *place);
    }
}

fn awaken(marks: &mut [Mark], place: usize)
    ensures { IsChangedAt IsAwake place marks.old marks.new }
{
    if place < marks.len() {
        marks[place].waits = no_link();
    }
}

/// Of rows that have lists and are not decided, leaves those that are so still, in their order. Takes no memory.
pub fn keep_open(undecided: &mut Vec<usize>, rows: &[Row], marks: &[Mark])
    ensures { undecided.new.items ≡ filter (is_open rows.now marks.now) undecided.old.items }
{
    undecided.retain(|at| is_open(rows, marks, *at));
}

// Whether a row has a list and is not decided.
fn is_open(rows: &[Row], marks: &[Mark], at: usize) -> bool
    ensures { result ≡ is_open rows.now marks.now at }
{
    if mark_of(marks, at).decided {
        return false;
    }
    is_told(rows, at)
}
