//! Rows of bits.
ghost use Rattle.std.specs.Prelude.{◌≡◌, ◌<◌, ◌≤◌, ◌^◌, ◌||◌, ℕ, List, Vec, false, length, IfOk, OnOk, OnErr};
ghost use Rattle.std.specs.declared.alloc.Global.{Global as Allocator};
ghost use Rattle.roc_server_reach.specs.Bits.{bit_at, row_bit, AreReached, AreSameBits, IsColumnCleared, IsPut, IsRowCleared};
ghost use Rattle.roc_server_reach.specs.Inner.Words.{IsSetOf, IsWithout};
ghost use Rattle.roc_server_reach.specs.Inner.Rows.{bits_in, AreRowsWithin, AreSameRows, KeepsWithin};

use crate::words::{
    clear_all, has_common, join_but, next_of, put_bit, set_of, take_out, widen, words_for, zeros,
};
use roc_base::NoMemory;
use std::alloc::Global;

// Adds empty rows until there is one at this number.
fn grow_to(alloc: Global, rows: &mut Vec<Vec<u64>>, at: usize) -> Result<(), NoMemory>
    ensures same { AreSameRows rows.old.items rows.new.items }
    ensures there { OnOk result (at < length rows.new.items) }
{
    'grow: while rows.len() <= at {
        rows.push(Vec::new(alloc))?;
    }
    Ok(())
}

// Gives a row these bits and no others. What changes the bits comes last, by what takes no memory.
pub(crate) fn put_row(
    alloc: Global,
    rows: &mut Vec<Vec<u64>>,
    stale: &mut Vec<u64>,
    at: usize,
    names: &[usize],
) -> Result<(), NoMemory>
    requires { AreRowsWithin rows.old.items (length stale.old.items) }
    ensures within { AreRowsWithin rows.new.items (length stale.new.items) }
    ensures ok { OnOk result (IsPut at names.now (bits_in rows.old.items stale.old.items) (bits_in rows.new.items stale.new.items)) }
    ensures err { OnErr result (AreSameBits (bits_in rows.old.items stale.old.items) (bits_in rows.new.items stale.new.items)) }
{
    let words = words_for(names);
    let row = set_of(alloc, names, words)?;
    grow_to(alloc, rows, at)?;
    widen(stale, words)?;
    sweep_for(rows, stale, row.as_slice());
    rows[at] = row;
    Ok(())
}

// Where a number of this new row is stale, takes the stale bits out of all rows, so that none is stale any longer.
fn sweep_for(rows: &mut Vec<Vec<u64>>, stale: &mut Vec<u64>, row: &[u64])
    requires within { AreRowsWithin rows.old.items (length stale.old.items) }
    requires covered { length row.now ≤ length stale.old.items }
    ensures same { AreSameBits (bits_in rows.old.items stale.old.items) (bits_in rows.new.items stale.new.items) }
    ensures within { KeepsWithin rows.old.items rows.new.items }
    ensures rows { length rows.new.items ≡ length rows.old.items }
    ensures each { length stale.new.items ≡ length stale.old.items }
    ensures live { IsWithout stale.new.items row.now row.now }
{
    if !has_common(row, stale.as_slice()) {
        return;
    }
    for place in 0..rows.len() {
        take_out(&mut rows[place], stale.as_slice());
    }
    clear_all(stale);
}

// Takes all bits out of a row.
pub(crate) fn clear_row(rows: &mut Vec<Vec<u64>>, at: usize)
    ensures cleared { (stale : List ℕ) → IsRowCleared at (bits_in rows.old.items stale) (bits_in rows.new.items stale) }
    ensures within { KeepsWithin rows.old.items rows.new.items }
{
    if at < rows.len() {
        rows[at].clear();
    }
}

// Takes the bit of one number out of each row, by a mark that it is stale.
pub(crate) fn clear_column(stale: &mut [u64], at: usize)
    ensures each { length stale.new ≡ length stale.old }
    ensures cleared { (rows : List (Vec ℕ Allocator)) → AreRowsWithin rows (length stale.old) → IsColumnCleared at (bits_in rows stale.old) (bits_in rows stale.new) }
{
    if at / 64 < stale.len() {
        put_bit(stale, at);
    }
}

// What these numbers lead to.
pub(crate) fn reached_by(
    alloc: Global,
    rows: &[Vec<u64>],
    stale: &[u64],
    from: &[usize],
) -> Result<Vec<usize>, NoMemory>
    requires { AreRowsWithin rows.now (length stale.now) }
    ensures { IfOk result (λ ns. AreReached (bits_in rows.now stale.now) from.now ns.items) }
{
    let width = stale.len().max(words_for(from));
    let mut met = set_of(alloc, from, width)?;
    let mut done = zeros(alloc, width)?;
    search(alloc, rows, stale, &mut met, &mut done)
}

// The same of a set of numbers. Each that is met is done in its turn: the set of what is met takes its row in.
fn search(
    alloc: Global,
    rows: &[Vec<u64>],
    stale: &[u64],
    met: &mut [u64],
    done: &mut [u64],
) -> Result<Vec<usize>, NoMemory>
    requires within { AreRowsWithin rows.now (length stale.now) }
    requires wide { length stale.now ≤ length met.old }
    requires few { length met.old ≤ 2 ^ 58 }
    requires each { length done.old ≡ length met.old }
    requires none { (m : ℕ) → row_bit done.old m ≡ false }
    ensures { IfOk result (λ ns. (from : List ℕ) → IsSetOf from met.old → AreReached (bits_in rows.now stale.now) from ns.items) }
{
    let mut found = Vec::new(alloc);
    let mut place = 0;
    'search: while let Some(next) = next_of(met, done, place) {
        place = next / 64;
        found.push(next)?;
        put_bit(done, next);
        follow(rows, stale, met, next);
    }
    Ok(found)
}

// Puts what a row leads to into a set.
fn follow(rows: &[Vec<u64>], stale: &[u64], met: &mut [u64], at: usize)
    requires within { AreRowsWithin rows.now (length stale.now) }
    requires wide { length stale.now ≤ length met.old }
    ensures { (m : ℕ) → row_bit met.new m ≡ (row_bit met.old m || bit_at (bits_in rows.now stale.now) at m) }
{
    if let Some(row) = rows.get(at) {
        join_but(met, row.as_slice(), stale);
    }
}
