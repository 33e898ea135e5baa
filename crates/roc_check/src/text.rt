//! The lines of the text of `check`, one behind another.
ghost use Rattle.std.specs.Prelude.{◌≡◌, ◌++◌, ◌<◌, length, map, filter, IfOk, OnOk};
ghost use Rattle.std.specs.List.{flat_map, range_with_len};
ghost use Rattle.roc_program.specs.Conflict.{are_in_conflict};
ghost use Rattle.roc_program.specs.Pieces.{all_pieces};
ghost use Rattle.roc_program.specs.declared.piece_id.PieceId.{PieceId as Id};
ghost use Rattle.roc_plan.specs.Groups.{groups_of, group_of};
ghost use Rattle.roc_plan.specs.Accepted.{is_piece_immediate};
ghost use Rattle.roc_check.specs.Inner.PieceSets.{holds};
ghost use Rattle.roc_check.specs.Lines.{procedures_of, standing_of, piece_lines, group_line, group_lines, procedure_lines, conflict_lines, check_lines};
ghost use Rattle.roc_report.specs.Checked.{Conflict};
ghost use Rattle.roc_report.specs.Checked.{checked_lines_text};

use crate::piece_sets::holds;
use crate::users::{conflicting, users};
use roc_base::NoMemory;
use roc_plan::{Class, Plan};
use roc_program::{PieceId, Workload, all_pieces, is_declared_now, piece_count};
use roc_report::{CheckLine, Standing, append_check};
use std::alloc::Global;

/// The text of `check` of a plan.
pub fn check_text(alloc: Global, plan: &Plan) -> Result<Vec<u8>, NoMemory>
    ensures { IfOk result (λ text. text.items ≡ checked_lines_text plan.now.program (check_lines plan.now)) }
{
    let workload = plan.workload();
    let mut text = Vec::new(alloc);
    let shards = CheckLine::Shards(workload.shards());
    append_check(alloc, &mut text, workload, &shards)?;
    push_procedures(alloc, &mut text, plan)?;
    let pieces = all_pieces(alloc, workload)?;
    push_conflicts(alloc, &mut text, workload, pieces.as_slice())?;
    append_check(alloc, &mut text, workload, &CheckLine::Accepted)?;
    Ok(text)
}

// Adds each procedure with its pieces and groups.
fn push_procedures(alloc: Global, text: &mut Vec<u8>, plan: &Plan) -> Result<(), NoMemory>
    ensures { OnOk result (text.new.items ≡ text.old.items ++ checked_lines_text plan.now.program (flat_map (procedure_lines plan.now) (procedures_of plan.now.program))) }
{
    for proc in 0..plan.procedures() {
        push_procedure(alloc, text, plan, proc)?;
    }
    Ok(())
}

// Adds a procedure with its pieces and groups.
fn push_procedure(alloc: Global, text: &mut Vec<u8>, plan: &Plan, proc: u16) -> Result<(), NoMemory>
    requires { proc < length plan.now.program.procedures }
    ensures { OnOk result (text.new.items ≡ text.old.items ++ checked_lines_text plan.now.program (procedure_lines plan.now proc)) }
{
    append_check(alloc, text, plan.workload(), &CheckLine::Proc(proc))?;
    push_pieces(alloc, text, plan, proc)?;
    push_groups(alloc, text, plan, proc)
}

// Adds the pieces of a procedure.
fn push_pieces(alloc: Global, text: &mut Vec<u8>, plan: &Plan, proc: u16) -> Result<(), NoMemory>
    requires { proc < length plan.now.program.procedures }
    ensures { OnOk result (text.new.items ≡ text.old.items ++ checked_lines_text plan.now.program (piece_lines plan.now proc)) }
{
    let workload = plan.workload();
    for piece in 0..piece_count(workload, proc) {
        let id = PieceId { proc, piece };
        let standing = standing(plan, id);
        append_check(alloc, text, workload, &CheckLine::Piece { id, standing })?;
    }
    Ok(())
}

fn standing(plan: &Plan, id: PieceId) -> Standing
    requires { id.proc < length plan.now.program.procedures }
    ensures { result ≡ standing_of plan.now id }
{
    if plan.is_view(id.proc) {
        Standing::View
    } else if is_declared_now(plan.workload(), id) {
        Standing::Immediate
    } else if is_piece_immediate(plan, id) {
        Standing::Promoted
    } else {
        Standing::Deferrable
    }
}

// Whether a piece runs at the start, with its group.
fn is_piece_immediate(plan: &Plan, id: PieceId) -> bool
    requires { id.proc < length plan.now.program.procedures }
    ensures { result ≡ is_piece_immediate plan.now id }
{
    for group in 0..plan.groups(id.proc) {
        if is_immediate(plan, id.proc, group) && plan.pieces(id.proc, group).contains(&id.piece) {
            return true;
        }
    }
    false
}

fn is_immediate(plan: &Plan, proc: u16, group: u16) -> bool
    requires { group < length (groups_of plan.now proc) }
    ensures { result ≡ (group_of plan.now proc group).is_immediate }
{
    match plan.class(proc, group) {
        Class::Immediate => true,
        Class::Deferrable => false,
    }
}

// Adds the groups of a procedure, unless it is a view.
fn push_groups(alloc: Global, text: &mut Vec<u8>, plan: &Plan, proc: u16) -> Result<(), NoMemory>
    requires { proc < length plan.now.program.procedures }
    ensures { OnOk result (text.new.items ≡ text.old.items ++ checked_lines_text plan.now.program (group_lines plan.now proc)) }
{
    if plan.is_view(proc) {
        return Ok(());
    }
    push_each_group(alloc, text, plan, proc)
}

// Adds each group of a procedure.
fn push_each_group(
    alloc: Global,
    text: &mut Vec<u8>,
    plan: &Plan,
    proc: u16,
) -> Result<(), NoMemory>
    requires { proc < length plan.now.program.procedures }
    ensures { OnOk result (text.new.items ≡ text.old.items ++ checked_lines_text plan.now.program (map (group_line plan.now proc) (range_with_len 0 (length (groups_of plan.now proc))))) }
{
    for number in 0..plan.groups(proc) {
        let immediate = is_immediate(plan, proc, number);
        let pieces = plan.pieces(proc, number);
        let line = CheckLine::Group {
            proc,
            number,
            immediate,
            pieces,
        };
        append_check(alloc, text, plan.workload(), &line)?;
    }
    Ok(())
}

// Adds each of these pieces with itself and with those behind it, where the two conflict.
fn push_conflicts(
    alloc: Global,
    text: &mut Vec<u8>,
    workload: &Workload,
    pieces: &[PieceId],
) -> Result<(), NoMemory>
    ensures { OnOk result (text.new.items ≡ text.old.items ++ checked_lines_text workload.now (conflict_lines workload.now pieces.now)) }
{
    let touched = users(alloc, workload, false)?;
    let written = users(alloc, workload, true)?;
    for (at, first) in pieces.iter().enumerate() {
        let found = conflicting(workload, &touched, &written, *first);
        push_conflicts_of(alloc, text, workload, *first, &found, &pieces[at..])?;
    }
    Ok(())
}

// Adds the conflicts of a piece with these, where those that it is in conflict with are found.
fn push_conflicts_of(
    alloc: Global,
    text: &mut Vec<u8>,
    workload: &Workload,
    first: PieceId,
    found: &[u16; 64],
    others: &[PieceId],
) -> Result<(), NoMemory>
    requires { (id : Id) → holds found.now id ≡ are_in_conflict workload.now first id }
    ensures { OnOk result (text.new.items ≡ text.old.items ++ checked_lines_text workload.now (map (Conflict first) (filter (are_in_conflict workload.now first) others.now))) }
{
    for other in others {
        if holds(found, *other) {
            append_check(alloc, text, workload, &CheckLine::Conflict(first, *other))?;
        }
    }
    Ok(())
}
