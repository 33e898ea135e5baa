//! The outlines of the groups of a workload.
ghost use Rattle.std.specs.Prelude.{◌≡◌, ◌<◌, ◌≤◌, length, map, if◌then◌else◌, IfOk};
ghost use Rattle.std.specs.List.{AllByRecursion, list_any};
ghost use Rattle.roc_program.specs.Parts as view;
ghost use Rattle.roc_conflict.specs.Classes.{is_immediate};
ghost use Rattle.roc_merge_groups.specs.Groups.{piece_numbered, groups_in};
ghost use Rattle.roc_merge_groups.specs.Grouping.{IsGrouping};
ghost use Rattle.roc_merge_groups.specs.Accepted.{IsAcceptedGrouping};
ghost use Rattle.roc_plan.specs.declared.group.Class.TheVariants.{Immediate, Deferrable};
ghost use Rattle.roc_plan.specs.Groups.{bound_in};
ghost use Rattle.roc_plan.specs.Sized.{IsSized};
ghost use Rattle.roc_plan_make.specs.Inner.Built.{IsDrawn, AreDrawn, AreAllDrawn};

use crate::names::{bound_names, input_names};
use crate::replies::{inputs_from, outs_of};
use roc_base::NoMemory;
use roc_conflict::Classes;
use roc_merge_groups::Groups;
use roc_plan::{Class, Outline};
use roc_program::{PieceId, Procedure, Workload, procedure_count};
use std::alloc::Global;

/// The groups of all procedures.
pub fn outlines_of(
    alloc: Global,
    workload: &Workload,
    classes: &Classes,
    groups: &Groups,
) -> Result<Vec<Vec<Outline>>, NoMemory>
    requires { IsAcceptedGrouping workload.now (is_immediate classes.now) groups.now }
    ensures { IfOk result (λ rows. AreAllDrawn workload.now (is_immediate classes.now) groups.now (map (λ row. row.items) rows.items)) }
{
    let mut rows = Vec::new(alloc);
    for proc in 0..procedure_count(workload) {
        let procedure = &workload.procedures()[usize::from(proc)];
        rows.push(outlines_in(alloc, procedure, proc, classes, groups)?)?;
    }
    Ok(rows)
}

// Those of a procedure.
fn outlines_in(
    alloc: Global,
    procedure: &Procedure,
    proc: u16,
    classes: &Classes,
    groups: &Groups,
) -> Result<Vec<Outline>, NoMemory>
    requires grouping { IsGrouping (length (view.procedure procedure.now).pieces) (groups_in groups.now proc) }
    requires sized { IsSized (view.procedure procedure.now) }
    ensures { IfOk result (λ row. AreDrawn (view.procedure procedure.now) (λ x. is_immediate classes.now (piece_numbered proc x)) (groups_in groups.now proc) row.items
        (length (groups_in groups.now proc))) }
{
    let bounds = bound_names(alloc, procedure, groups, proc)?;
    let mut row = Vec::new(alloc);
    for group in 0..bounds.len() {
        let pieces = groups.pieces(proc, group as u16);
        let class = class_of(classes, proc, pieces);
        row.push(outline_of(alloc, procedure, class, pieces, &bounds[group], &bounds)?)?;
    }
    Ok(row)
}

// A group is immediate where a piece of it is.
fn class_of(classes: &Classes, proc: u16, pieces: &[u16]) -> Class
    ensures { result ≡ (if list_any (λ x. is_immediate classes.now (piece_numbered proc x)) pieces.now then Immediate else Deferrable) }
{
    if has_immediate(classes, proc, pieces) {
        Class::Immediate
    } else {
        Class::Deferrable
    }
}

fn has_immediate(classes: &Classes, proc: u16, pieces: &[u16]) -> bool
    ensures { result ≡ list_any (λ x. is_immediate classes.now (piece_numbered proc x)) pieces.now }
{
    pieces.iter().any(|piece| classes.is_immediate(PieceId {
        proc,
        piece: *piece,
    }))
}

// A group of these pieces. `own` are the names that it binds, `bounds` those of each group.
fn outline_of(
    alloc: Global,
    procedure: &Procedure,
    class: Class,
    pieces: &[u16],
    own: &[u16],
    bounds: &[Vec<u16>],
) -> Result<Outline, NoMemory>
    requires sized { IsSized (view.procedure procedure.now) }
    requires pieces { AllByRecursion (λ k. k < length (view.procedure procedure.now).pieces) pieces.now }
    requires own { own.now ≡ bound_in (view.procedure procedure.now) pieces.now }
    requires own_short { length own.now ≤ 1024 }
    requires few { length bounds.now ≤ 16 }
    requires short { AllByRecursion (λ row. length row ≤ 1024) (map (λ row. row.items) bounds.now) }
    ensures { IfOk result (IsDrawn (view.procedure procedure.now) (map (λ row. row.items) bounds.now) class pieces.now) }
{
    let names = input_names(alloc, procedure, pieces, own)?;
    Ok(Outline {
        pieces: Vec::from_slice(alloc, pieces)?,
        class,
        bound: own.len() as u16,
        inputs: inputs_from(alloc, bounds, &names)?,
        names,
        outs: outs_of(alloc, procedure, pieces)?,
    })
}
