//! The numbers of the cells.
ghost use Rattle.std.specs.Prelude.{◌≡◌, ◌+◌, ◌<◌, ◌≤◌, Some, None, unwrap_or, vec_len, vec_capacity, IsOk, IfOk, OnOk, OnErr};
ghost use Rattle.roc_rows.specs.Store.{entries, read, write};
ghost use Rattle.roc_rows.specs.Inner.Kept.{undone};

use crate::Cell;
use crate::numbers::Numbers;
use roc_base::NoMemory;
use std::alloc::Global;
use std::marker::Model;

/// A number for each cell, 0 until another is set. Takes memory for the cells that are not 0, and for the sets behind a savepoint.
#[derive(Drop)]
pub struct Rows {
    alloc: Global,
    numbers: Numbers,
    // Of each set behind the savepoint, what its cell held before.
    notes: Option<Vec<(Cell, i64)>>,
}

impl Model for Rows {
    ghost use Rattle.roc_rows.specs.Held.{Held};
    ghost use Rattle.roc_rows.specs.Inner.Kept.{coded_held, spare_beside, saved_by, CanUndo};

    ghost Value = { Held };

    ghost coded = { coded_held };

    ghost view = { λ r. record { store = r.numbers.store; spare = spare_beside r.numbers.spare r.notes; saved = saved_by r.numbers.store r.notes } };

    ghost invariant = { λ r. CanUndo r.numbers.spare r.notes };
}

impl Rows {
    ghost use Rattle.roc_rows.specs.Store.{empty};

    /// All cells 0, and no savepoint. Takes no memory.
    pub fn new(alloc: Global) -> Rows
        ensures store { result.store ≡ empty }
        ensures saved { result.saved ≡ None }
    {
        Rows {
            alloc,
            numbers: Numbers::new(alloc),
            notes: None,
        }
    }

    /// The number of a cell.
    pub fn get(&self, cell: Cell) -> i64
        ensures { result ≡ read self.now.store cell }
    {
        self.numbers.get(cell)
    }

    /// Sets the number of a cell. `NoMemory` leaves all cells as they were, and comes only where
    /// `spare` is 0.
    pub fn set(&mut self, cell: Cell, number: i64) -> Result<(), NoMemory>
        ensures ok { OnOk result (self.new.store ≡ write self.old.store cell number) }
        ensures err { OnErr result (self.new.store ≡ self.old.store) }
        ensures succeeds { 0 < self.old.spare → IsOk result }
        ensures spare { self.old.spare ≤ self.new.spare + 1 }
        ensures saved { self.new.saved ≡ self.old.saved }
    {
        if let Some(notes) = &mut self.notes {
            return set_noted(&mut self.numbers, notes, cell, number);
        }
        self.numbers.set(cell, number)
    }

    /// How many more sets cannot fail.
    pub fn spare(&self) -> usize
        ensures { result ≡ self.now.spare }
    {
        let spare = self.numbers.spare();
        match &self.notes {
            Some(notes) => ((spare - notes.len()) / 2).min(notes.capacity() - notes.len()),
            None => spare,
        }
    }

    /// Takes memory ahead, so that this many more sets cannot fail. No cell changes, whether there
    /// is memory or not.
    pub fn reserve(&mut self, more: usize) -> Result<(), NoMemory>
        ensures store { self.new.store ≡ self.old.store }
        ensures ok { OnOk result (more ≤ self.new.spare) }
        ensures succeeds { more ≤ self.old.spare → IsOk result }
        ensures spare { self.old.spare ≤ self.new.spare }
        ensures saved { self.new.saved ≡ self.old.saved }
    {
        if let Some(notes) = &mut self.notes {
            return reserve_noted(&mut self.numbers, notes, more);
        }
        self.numbers.reserve(more)
    }

    /// Begins to note what cells hold before they are set, so that all sets from here on can be undone. A savepoint before it is
    /// given up. Takes no memory; what was taken ahead by `reserve` before is not counted as spare any more.
    pub fn savepoint(&mut self)
        ensures store { self.new.store ≡ self.old.store }
        ensures saved { self.new.saved ≡ Some self.old.store }
    {
        self.notes = Some(Vec::new(self.alloc));
    }

    /// The sets behind the savepoint stay, and can be undone no more. Takes no memory.
    pub fn release(&mut self)
        ensures store { self.new.store ≡ self.old.store }
        ensures saved { self.new.saved ≡ None }
        ensures spare { self.old.spare ≤ self.new.spare }
    {
        self.notes = None;
    }

    /// Undoes the sets behind the savepoint, where there is one, and gives it up. Takes no memory.
    pub fn rollback(&mut self)
        ensures store { self.new.store ≡ unwrap_or self.old.saved self.old.store }
        ensures saved { self.new.saved ≡ None }
    {
        if let Some(notes) = self.notes.take() {
            undo(&mut self.numbers, notes);
        }
    }

    /// The cells that are not 0, each with its number, by cell rising.
    pub fn nonzero(&self) -> Result<Vec<(Cell, i64)>, NoMemory>
        ensures { IfOk result (λ listed. listed.items ≡ entries self.now.store) }
    {
        self.numbers.nonzero()
    }

    /// The same of the cells as they were at the savepoint, where there is one.
    pub fn nonzero_saved(&self) -> Result<Vec<(Cell, i64)>, NoMemory>
        ensures { IfOk result (λ listed. listed.items ≡ entries (unwrap_or self.now.saved self.now.store)) }
    {
        match &self.notes {
            Some(notes) => before(&self.numbers, notes),
            None => self.numbers.nonzero(),
        }
    }

    /// A copy of all cells, on the same allocator, without a savepoint.
    pub fn try_clone(&self) -> Result<Rows, NoMemory>
        ensures store { IfOk result (λ copy. copy.store ≡ self.now.store) }
        ensures saved { IfOk result (λ copy. copy.saved ≡ None) }
    {
        Ok(Rows {
            alloc: self.alloc,
            numbers: self.numbers.try_clone()?,
            notes: None,
        })
    }
}

// Sets the number of a cell, and notes what it held.
fn set_noted(
    numbers: &mut Numbers,
    notes: &mut Vec<(Cell, i64)>,
    cell: Cell,
    number: i64,
) -> Result<(), NoMemory>
    requires { vec_len notes.old ≤ numbers.old.spare }
    ensures ok { OnOk result (numbers.new.store ≡ write numbers.old.store cell number) }
    ensures err { OnErr result (numbers.new.store ≡ numbers.old.store) }
    ensures undone { undone notes.new.items numbers.new.store ≡ undone notes.old.items numbers.old.store }
    ensures room { vec_len notes.new ≤ numbers.new.spare }
    ensures succeeds { vec_len notes.old + 2 ≤ numbers.old.spare → vec_len notes.old < vec_capacity notes.old → IsOk result }
    ensures spare { numbers.old.spare ≤ numbers.new.spare + 1 }
    ensures len { vec_len notes.new ≤ vec_len notes.old + 1 }
    ensures capacity { vec_capacity notes.old ≤ vec_capacity notes.new }
{
    reserve_noted(numbers, notes, 1)?;
    let before = note(numbers, &cell);
    notes.push(before).unwrap();
    numbers.set(cell, number).unwrap();
    Ok(())
}

// What a cell holds.
fn note(numbers: &Numbers, cell: &Cell) -> (Cell, i64)
    ensures { result ≡ (cell.now, read numbers.now.store cell.now) }
{
    let number = numbers.get(*cell);
    (*cell, number)
}

// Takes memory ahead for this many more sets beside what is noted: a place in the notes for each, one in the table, and one more
// to undo it.
fn reserve_noted(
    numbers: &mut Numbers,
    notes: &mut Vec<(Cell, i64)>,
    more: usize,
) -> Result<(), NoMemory>
    ensures store { numbers.new.store ≡ numbers.old.store }
    ensures notes { notes.new.items ≡ notes.old.items }
    ensures len { vec_len notes.new ≡ vec_len notes.old }
    ensures ok { OnOk result ((vec_len notes.old + more + more ≤ numbers.new.spare) × (vec_len notes.old + more ≤ vec_capacity notes.new)) }
    ensures succeeds { vec_len notes.old + more + more ≤ numbers.old.spare → vec_len notes.old + more ≤ vec_capacity notes.old → IsOk result }
    ensures spare { numbers.old.spare ≤ numbers.new.spare }
    ensures capacity { vec_capacity notes.old ≤ vec_capacity notes.new }
{
    let Some(noted) = notes.len().checked_add(more) else {
        return Err(NoMemory);
    };
    let Some(places) = noted.checked_add(more) else {
        return Err(NoMemory);
    };
    numbers.reserve(places)?;
    notes.reserve(more)?;
    Ok(())
}

// Undoes what is noted, the last first.
fn undo(numbers: &mut Numbers, mut notes: Vec<(Cell, i64)>)
    requires { vec_len notes ≤ numbers.old.spare }
    ensures { numbers.new.store ≡ undone notes.items numbers.old.store }
{
    while let Some((cell, number)) = notes.pop() {
        numbers.set(cell, number).unwrap();
    }
}

// The cells that are not 0 where what is noted is undone, on a copy.
fn before(numbers: &Numbers, notes: &Vec<(Cell, i64)>) -> Result<Vec<(Cell, i64)>, NoMemory>
    ensures { IfOk result (λ listed. listed.items ≡ entries (undone notes.now.items numbers.now.store)) }
{
    let mut copy = numbers.try_clone()?;
    copy.reserve(notes.len())?;
    undo(&mut copy, notes.clone()?);
    copy.nonzero()
}
