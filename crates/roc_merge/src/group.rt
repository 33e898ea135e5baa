//! The merged groups.
ghost use Rattle.std.specs.Prelude.{◌≡◌, ◌↔◌, ◌<◌, ◌≤◌, [], ◌∷◌, ◌++◌, if◌then◌else◌, ℕ, length, map, filter, IsTrue, IfOk, OnOk};
ghost use Rattle.std.specs.List.{list_any, range_with_len};
ghost use Rattle.roc_conflict.specs.Classes.{is_immediate};
ghost use Rattle.roc_conflict.specs.Columns.{AreAll};
ghost use Rattle.roc_merge_groups.specs.Core.{InCore};
ghost use Rattle.roc_merge_groups.specs.Grouping.{IsMergedIn, IsMerged};
ghost use Rattle.roc_merge.specs.Inner.Tables.{holds, row_in, IsCoreBy};
ghost use Rattle.roc_merge.specs.Grouped.{group_from, grouped};

use crate::tables::{contended_in, count_of, flow_in};
use roc_base::NoMemory;
use roc_conflict::{Classes, Columns};
use roc_merge_groups::Groups;
use roc_program::{Workload, procedure_count};
use std::alloc::Global;

/// The groups of all procedures, by the columns of all pieces.
pub(crate) fn merged(
    alloc: Global,
    workload: &Workload,
    classes: &Classes,
    columns: &Columns,
) -> Result<Groups, NoMemory>
    requires { AreAll workload.now columns.now }
    ensures { IfOk result (IsMerged workload.now (is_immediate classes.now)) }
{
    let mut procedures = Vec::new(alloc);
    for proc in 0..procedure_count(workload) {
        procedures.push(merged_in(alloc, workload, classes, columns, proc)?)?;
    }
    Ok(Groups::from_lists(procedures))
}

// The groups of a procedure.
fn merged_in(
    alloc: Global,
    workload: &Workload,
    classes: &Classes,
    columns: &Columns,
    proc: u16,
) -> Result<Vec<Vec<u16>>, NoMemory>
    requires procedure { proc < length workload.now.procedures }
    requires columns { AreAll workload.now columns.now }
    ensures { IfOk result (λ groups. IsMergedIn workload.now (is_immediate classes.now) proc (map (λ g. g.items) groups.items)) }
{
    let core = core_of(workload, classes, columns, proc);
    groups_by(alloc, &core, count_of(workload, proc))
}

// The pieces of a procedure that have to run as one.
fn core_of(workload: &Workload, classes: &Classes, columns: &Columns, proc: u16) -> [bool; 16]
    requires procedure { proc < length workload.now.procedures }
    requires columns { AreAll workload.now columns.now }
    ensures { (x : ℕ) → IsTrue (holds result x) ↔ InCore workload.now (is_immediate classes.now) proc x }
{
    let contended = contended_in(workload, classes, columns, proc);
    let flow = flow_in(workload, proc);
    let mut core = [false; 16];
    for piece in 0..count_of(workload, proc) {
        core[usize::from(piece)] = is_core(&contended, &flow, piece);
    }
    core
}

// Whether a piece is contended, or between two contended ones.
fn is_core(contended: &[bool; 16], flow: &[[bool; 16]; 16], piece: u16) -> bool
    requires { piece < 16 }
    ensures { IsTrue result ↔ IsCoreBy contended.now flow.now piece }
{
    contended[usize::from(piece)]
        || meet(contended, &flow[usize::from(piece)]) && meet(contended, &users(flow, piece))
}

// Whether two rows hold a piece in common.
fn meet(one: &[bool; 16], other: &[bool; 16]) -> bool
    ensures { IsTrue result ↔ ((p : ℕ) × IsTrue (holds one.now p) × IsTrue (holds other.now p)) }
{
    for at in 0..16 {
        if one[at] && other[at] {
            return true;
        }
    }
    false
}

// The pieces that this one leads to.
fn users(flow: &[[bool; 16]; 16], piece: u16) -> [bool; 16]
    requires { piece < 16 }
    ensures { (q : ℕ) → IsTrue (holds result q) ↔ IsTrue (holds (row_in flow.now q) piece) }
{
    let mut row = [false; 16];
    for at in 0..16 {
        row[at] = flow[at][usize::from(piece)];
    }
    row
}

// The core as one group, and each other piece as a group by itself, in the order of their first pieces.
fn groups_by(alloc: Global, core: &[bool; 16], count: u16) -> Result<Vec<Vec<u16>>, NoMemory>
    requires { count ≤ 16 }
    ensures { IfOk result (λ groups. map (λ g. g.items) groups.items ≡ grouped (holds core.now) count) }
{
    let mut groups = Vec::new(alloc);
    for piece in 0..count {
        push_group(alloc, core, count, piece, &mut groups)?;
    }
    Ok(groups)
}

// Adds a piece by itself where it is not in the core, and the whole core where it is the core's first.
fn push_group(
    alloc: Global,
    core: &[bool; 16],
    count: u16,
    piece: u16,
    groups: &mut Vec<Vec<u16>>,
) -> Result<(), NoMemory>
    requires count { count ≤ 16 }
    requires piece { piece < count }
    ensures { OnOk result (map (λ g. g.items) groups.new.items ≡ map (λ g. g.items) groups.old.items ++ group_from (holds core.now) count piece) }
{
    if !core[usize::from(piece)] {
        groups.push(vec![in alloc; piece]?)?;
        return Ok(());
    }
    if has_before(core, piece) {
        return Ok(());
    }
    groups.push(held(alloc, core, count)?)?;
    Ok(())
}

// Whether a row holds a piece before this one.
fn has_before(row: &[bool; 16], piece: u16) -> bool
    requires { piece < 16 }
    ensures { result ≡ list_any (holds row.now) (range_with_len 0 piece) }
{
    for before in 0..piece {
        if row[usize::from(before)] {
            return true;
        }
    }
    false
}

// The pieces that a row holds.
fn held(alloc: Global, row: &[bool; 16], count: u16) -> Result<Vec<u16>, NoMemory>
    requires { count ≤ 16 }
    ensures { IfOk result (λ pieces. pieces.items ≡ filter (holds row.now) (range_with_len 0 count)) }
{
    let mut pieces = Vec::new(alloc);
    for piece in 0..count {
        push_held(row, piece, &mut pieces)?;
    }
    Ok(pieces)
}

// Adds a piece where a row holds it.
fn push_held(row: &[bool; 16], piece: u16, pieces: &mut Vec<u16>) -> Result<(), NoMemory>
    requires { piece < 16 }
    ensures { OnOk result (pieces.new.items ≡ pieces.old.items ++ (if holds row.now piece then piece ∷ [] else [])) }
{
    if !row[usize::from(piece)] {
        return Ok(());
    }
    pieces.push(piece)?;
    Ok(())
}
