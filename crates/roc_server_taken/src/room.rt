//! Room for components ahead: each part of a coordinator has room for all that may come to stand there, so that none wants memory when it moves.
ghost use Rattle.std.specs.Prelude.{◌≡◌, ◌+◌, ◌<◌, ◌≤◌, ◌^◌, ℕ, true, length, map, get_or, OnOk, if◌then◌else◌};
ghost use Rattle.std.specs.VecDeque.{deque_capacity, deque_len};
ghost use Rattle.roc_server_taken.specs.Inner.Standing.{is_among, part_of};

use crate::components::Component;
use roc_base::{NoMemory, TxnId};
use std::collections::VecDeque;

// The part of a transaction: there is one for each coordinator, and what has none goes with the last.
pub(crate) fn part_of(id: TxnId) -> usize
    ensures { result ≡ part_of id }
{
    usize::from(id.coord).min(15)
}

// Whether some of these transactions are of a part.
fn is_among(at: usize, members: &[TxnId]) -> bool
    ensures { result ≡ is_among at members.now }
{
    members.iter().any(|id| part_of(*id) == at)
}

// One component more may come to stand in each part that it has a member of.
pub(crate) fn count_in(wanted: &mut [usize; 16], members: &[TxnId])
    requires { (at : ℕ) → at < 16 → get_or wanted.old at 0 + 1 < 2 ^ 64 }
    ensures each { (at : ℕ) → at < 16 → get_or wanted.new at 0 ≡ get_or wanted.old at 0 + (if is_among at members.now then 1 else 0) }
    ensures count { length wanted.new ≡ length wanted.old }
{
    for at in 0..16 {
        if is_among(at, members) {
            wanted[at] += 1;
        }
    }
}

// One component less may come to stand in each part that it has a member of.
pub(crate) fn count_out(wanted: &mut [usize; 16], members: &[TxnId])
    requires { (at : ℕ) → at < 16 → is_among at members.now ≡ true → 0 < get_or wanted.old at 0 }
    ensures each { (at : ℕ) → at < 16 → get_or wanted.old at 0 ≡ get_or wanted.new at 0 + (if is_among at members.now then 1 else 0) }
    ensures count { length wanted.new ≡ length wanted.old }
{
    for at in 0..16 {
        if is_among(at, members) {
            wanted[at] -= 1;
        }
    }
}

// Takes memory, so that each part has room for all that may come to stand there and for this many more.
pub(crate) fn reserve_each(
    parts: &mut [VecDeque<Component>; 16],
    wanted: &[usize; 16],
    more: usize,
) -> Result<(), NoMemory>
    ensures items { map (λ d. d.items) parts.new ≡ map (λ d. d.items) parts.old }
    ensures capacity { (at : ℕ) → get_or (map deque_capacity parts.old) at 0 ≤ get_or (map deque_capacity parts.new) at 0 }
    ensures ok { OnOk result ((at : ℕ) → at < 16 → get_or wanted.now at 0 + more ≤ get_or (map deque_capacity parts.new) at 0) }
{
    for at in 0..16 {
        reserve_part(&mut parts[at], wanted[at], more)?;
    }
    Ok(())
}

fn reserve_part(part: &mut VecDeque<Component>, wanted: usize, more: usize) -> Result<(), NoMemory>
    ensures items { part.new.items ≡ part.old.items }
    ensures capacity { deque_capacity part.old ≤ deque_capacity part.new }
    ensures ok { OnOk result (wanted + more ≤ deque_capacity part.new) }
{
    let Some(room) = wanted.checked_add(more) else {
        return Err(NoMemory);
    };
    part.reserve(room.saturating_sub(part.len()))?;
    Ok(())
}
