//! Which groups the protocol may rely on.
ghost use Rattle.std.specs.Prelude.{◌≡◌, ◌↔◌, ℕ, ◌<◌, length, map, count_by, IsTrue};
ghost use Rattle.std.specs.List.{AllByRecursion};
ghost use Rattle.roc_program.specs.Pieces.{pieces_in};
ghost use Rattle.roc_conflict.specs.Classes.{is_immediate};
ghost use Rattle.roc_conflict.specs.Columns.{AreAll};
ghost use Rattle.roc_merge_groups.specs.Groups.{piece_numbered, groups_in};
ghost use Rattle.roc_merge_groups.specs.Core.{AreCoLocated};
ghost use Rattle.roc_merge_groups.specs.Grouping.{IsGrouping};
ghost use Rattle.roc_merge_groups.specs.Accepted.{IsAcceptedIn, IsAcceptedGrouping};
ghost use Rattle.roc_merge_groups.specs.Parts.{IsPart};
ghost use Rattle.roc_merge_accept.specs.Inner.Tests.{IsAlike, has_contended, AreContendedIn};

use crate::are_co_located;
use crate::circle::has_no_circle;
use crate::partition::is_grouping;
use roc_conflict::{Classes, Columns, is_least};
use roc_merge_groups::Groups;
use roc_program::{PieceId, Workload, piece_count, procedure_count};

/// Whether the groups of a workload are ones that the protocol may rely on. Takes no memory.
pub fn are_accepted(workload: &Workload, classes: &Classes, groups: &Groups) -> bool
    ensures { IsTrue result ↔ IsAcceptedGrouping workload.now (is_immediate classes.now) groups.now }
{
    if groups.procedure_count() != usize::from(procedure_count(workload)) {
        return false;
    }
    if !is_least(workload, classes) {
        return false;
    }
    if !are_accepted_in_each(workload, classes, groups) {
        return false;
    }
    are_contended_in_one(workload, classes, groups)
}

// Whether the groups of each procedure are accepted, but for what the graph over groups says.
fn are_accepted_in_each(workload: &Workload, classes: &Classes, groups: &Groups) -> bool
    ensures { IsTrue result ↔ ((proc : ℕ) → proc < length workload.now.procedures → IsAcceptedIn workload.now (is_immediate classes.now) proc (groups_in groups.now proc)) }
{
    for proc in 0..procedure_count(workload) {
        if !are_accepted_in(workload, classes, proc, groups.of_procedure(proc)) {
            return false;
        }
    }
    true
}

fn are_accepted_in(workload: &Workload, classes: &Classes, proc: u16, groups: &[Vec<u16>]) -> bool
    requires { proc < length workload.now.procedures }
    ensures { IsTrue result ↔ IsAcceptedIn workload.now (is_immediate classes.now) proc (map (λ g. g.items) groups.now) }
{
    let _ = workload.procedures();
    if !is_grouping(groups, piece_count(workload, proc)) {
        return false;
    }
    if !are_alike(workload, classes, proc, groups) {
        return false;
    }
    has_no_circle(workload, proc, groups)
}

// Whether each group is one piece, or co-located immediate pieces.
fn are_alike(workload: &Workload, classes: &Classes, proc: u16, groups: &[Vec<u16>]) -> bool
    requires procedure { proc < length workload.now.procedures }
    requires parts { AllByRecursion (IsPart (length (pieces_in workload.now proc))) (map (λ g. g.items) groups.now) }
    ensures { IsTrue result ↔ AllByRecursion (IsAlike workload.now (is_immediate classes.now) proc) (map (λ g. g.items) groups.now) }
{
    for group in groups {
        if !is_alike(workload, classes, proc, group) {
            return false;
        }
    }
    true
}

fn is_alike(workload: &Workload, classes: &Classes, proc: u16, group: &[u16]) -> bool
    requires procedure { proc < length workload.now.procedures }
    requires part { IsPart (length (pieces_in workload.now proc)) group.now }
    ensures { IsTrue result ↔ IsAlike workload.now (is_immediate classes.now) proc group.now }
{
    if group.len() == 1 {
        return true;
    }
    for piece in group {
        if !is_like(workload, classes, proc, group[0], *piece) {
            return false;
        }
    }
    true
}

// Whether a piece is immediate, and co-located with the first of its group.
fn is_like(workload: &Workload, classes: &Classes, proc: u16, first: u16, piece: u16) -> bool
    requires procedure { proc < length workload.now.procedures }
    requires first { first < length (pieces_in workload.now proc) }
    requires piece { piece < length (pieces_in workload.now proc) }
    ensures { IsTrue result ↔ (IsTrue (is_immediate classes.now (piece_numbered proc piece)) × AreCoLocated workload.now proc first piece) }
{
    classes.is_immediate(PieceId { proc, piece }) && are_co_located(workload, proc, first, piece)
}

// Whether each procedure has its contended pieces in one group.
fn are_contended_in_one(workload: &Workload, classes: &Classes, groups: &Groups) -> bool
    requires { (proc : ℕ) → proc < length workload.now.procedures → IsGrouping (length (pieces_in workload.now proc)) (groups_in groups.now proc) }
    ensures { IsTrue result ↔ ((proc : ℕ) → proc < length workload.now.procedures → AreContendedIn workload.now (is_immediate classes.now) proc (groups_in groups.now proc)) }
{
    let all = Columns::of_all(workload);
    for proc in 0..procedure_count(workload) {
        if contended_groups(&all, workload, classes, proc, groups.of_procedure(proc)) > 1 {
            return false;
        }
    }
    true
}

// How many groups of a procedure have a contended piece.
fn contended_groups(
    all: &Columns,
    workload: &Workload,
    classes: &Classes,
    proc: u16,
    groups: &[Vec<u16>],
) -> usize
    requires { AreAll workload.now all.now }
    ensures { result ≡ count_by (λ g. has_contended workload.now (is_immediate classes.now) proc g.items) groups.now }
{
    groups
        .iter()
        .filter(|group| has_contended(all, workload, classes, proc, group))
        .count()
}

fn has_contended(
    all: &Columns,
    workload: &Workload,
    classes: &Classes,
    proc: u16,
    group: &[u16],
) -> bool
    requires { AreAll workload.now all.now }
    ensures { result ≡ has_contended workload.now (is_immediate classes.now) proc group.now }
{
    group.iter().any(|piece| all.contend(
        workload,
        classes,
        PieceId {
            proc,
            piece: *piece,
        },
    ))
}
