//! Sets of numbers, as words of 64 bits.
ghost use Rattle.std.specs.Prelude.{◌≡◌, ◌≤◌, ◌<◌, ◌/◌, ◌^◌, ◌||◌, ℕ, List, false, length, max, slice_index_or, IfOk, IfNone, IfSome, OnOk};
ghost use Rattle.roc_server_reach.specs.Bits.{row_bit};
ghost use Rattle.roc_server_reach.specs.Inner.Words.{AreBelow, HasAllBits, IsBitPut, IsNext, IsSetOf, IsWithout, room, words_but};

use roc_base::NoMemory;
use std::alloc::Global;

// How many words hold the bits of these numbers.
pub(crate) fn words_for(names: &[usize]) -> usize
    ensures few { result ≤ 2 ^ 58 }
    ensures below { AreBelow names.now result }
{
    let mut width = 0;
    for name in names {
        width = width.max(*name / 64 + 1);
    }
    width
}

// No number, in so many words.
pub(crate) fn zeros(alloc: Global, width: usize) -> Result<Vec<u64>, NoMemory>
    ensures width { IfOk result (λ set. length set.items ≡ width) }
    ensures none { IfOk result (λ set. (m : ℕ) → row_bit set.items m ≡ false) }
{
    let set = vec![in alloc; 0u64; width]?;
    Ok(set)
}

// These numbers, in so many words.
pub(crate) fn set_of(alloc: Global, names: &[usize], width: usize) -> Result<Vec<u64>, NoMemory>
    requires { AreBelow names.now width }
    ensures width { IfOk result (λ set. length set.items ≡ width) }
    ensures bits { IfOk result (λ set. IsSetOf names.now set.items) }
{
    let mut set = zeros(alloc, width)?;
    put_all(&mut set, names);
    Ok(set)
}

// Puts numbers into a set in which there is none.
fn put_all(set: &mut [u64], names: &[usize])
    requires below { AreBelow names.now (length set.old) }
    requires none { (m : ℕ) → row_bit set.old m ≡ false }
    ensures { IsSetOf names.now set.new }
{
    for name in names {
        put_bit(set, *name);
    }
}

// Puts one number into a set.
pub(crate) fn put_bit(set: &mut [u64], at: usize)
    requires { at / 64 < length set.old }
    ensures put { IsBitPut at set.old set.new }
    ensures room { row_bit set.old at ≡ false → room set.new < room set.old }
{
    set[at / 64] |= 1u64 << (at % 64);
}

// Adds words without a number until there are so many.
pub(crate) fn widen(set: &mut Vec<u64>, width: usize) -> Result<(), NoMemory>
    ensures same { (words : List ℕ) → words_but words set.new.items ≡ words_but words set.old.items }
    ensures no_fewer { length set.old.items ≤ length set.new.items }
    ensures at_most { length set.new.items ≤ max (length set.old.items) width }
    ensures wide { OnOk result (width ≤ length set.new.items) }
{
    'widen: while set.len() < width {
        set.push(0)?;
    }
    Ok(())
}

// Takes all numbers out of a set.
pub(crate) fn clear_all(set: &mut Vec<u64>)
    ensures each { length set.new.items ≡ length set.old.items }
    ensures zeros { (k : ℕ) → slice_index_or set.new.items k 0 ≡ 0 }
{
    for place in 0..set.len() {
        set[place] = 0;
    }
}

// Takes the stale members out, of which there are no fewer words.
pub(crate) fn take_out(set: &mut Vec<u64>, stale: &[u64])
    requires { length set.old.items ≤ length stale.now }
    ensures { IsWithout stale.now set.old.items set.new.items }
{
    for place in 0..set.len() {
        set[place] &= !stale[place];
    }
}

// Whether a number is in both sets; the other has no fewer words.
pub(crate) fn has_common(set: &[u64], other: &[u64]) -> bool
    requires { length set.now ≤ length other.now }
    ensures { result ≡ false → IsWithout other.now set.now set.now }
{
    for (place, word) in set.iter().enumerate() {
        if *word & other[place] != 0 {
            return true;
        }
    }
    false
}

// Puts in the members of another set that are not stale. It has no more words than either.
pub(crate) fn join_but(set: &mut [u64], added: &[u64], stale: &[u64])
    requires room { length added.now ≤ length set.old }
    requires covered { length added.now ≤ length stale.now }
    ensures { (m : ℕ) → row_bit set.new m ≡ (row_bit set.old m || row_bit (words_but added.now stale.now) m) }
{
    for (place, word) in added.iter().enumerate() {
        set[place] |= *word & !stale[place];
    }
}

// A number of one set that another of as many words does not have: the least from this word on, or else the least of all.
pub(crate) fn next_of(met: &[u64], done: &[u64], first: usize) -> Option<usize>
    requires each { length done.now ≡ length met.now }
    requires few { length met.now ≤ 2 ^ 58 }
    ensures some { IfSome result (IsNext met.now done.now) }
    ensures none { IfNone result (HasAllBits 0 met.now done.now) }
{
    if let Some(next) = next_from(met, done, first) {
        return Some(next);
    }
    next_from(met, done, 0)
}

// The least from this word on.
fn next_from(met: &[u64], done: &[u64], first: usize) -> Option<usize>
    requires each { length done.now ≡ length met.now }
    requires few { length met.now ≤ 2 ^ 58 }
    ensures some { IfSome result (IsNext met.now done.now) }
    ensures none { IfNone result (HasAllBits first met.now done.now) }
{
    for place in first..met.len() {
        let left = met[place] & !done[place];
        if left != 0 {
            return Some(place * 64 + left.trailing_zeros() as usize);
        }
    }
    None
}
