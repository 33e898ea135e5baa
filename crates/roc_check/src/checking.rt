//! The check of a text: each step in its turn, up to the first fault.
ghost use Rattle.std.specs.Prelude.{◌≡◌, ℕ, List, IfOk};
ghost use Rattle.roc_lang.specs.Syntax.{Tree};
ghost use Rattle.roc_lang.specs.Scope.{faults};
ghost use Rattle.roc_lang_parse.specs.Fault.{IsWorkloadText};
ghost use Rattle.roc_lang_parse.specs.Answer.{TellsFirstFault};
ghost use Rattle.roc_lang_scope.specs.Fault.{IsFirst};
ghost use Rattle.roc_conflict.specs.Classes.{is_immediate};
ghost use Rattle.roc_scgraph.specs.declared.vertex.Vertex.{Vertex};
ghost use Rattle.roc_witness.specs.Shortest.{IsCycleOf, IsShortestOf};
ghost use Rattle.roc_merge_groups.specs.Core.{IsAcceptable};
ghost use Rattle.roc_merge_groups.specs.Grouping.{IsMerged};
ghost use Rattle.roc_merge_groups.specs.Refusals.{IsApart, IsBlocked};
ghost use Rattle.roc_plan.specs.Groups.{Plan as Grouped};
ghost use Rattle.roc_check.specs.Checked.{AreImmediate, IsPlanOfText, IsCheckFault, IsCheckOf, IsPlanned};
ghost use Rattle.roc_check.specs.Inner.Judged.{IsRefusalOf, IsJudged};

use crate::CheckFault;
use crate::laws::plans_are_unique;
use roc_base::NoMemory;
use roc_conflict::{Classes, promote};
use roc_lang::LangError;
use roc_lang_parse::parse;
use roc_lang_resolve::resolve;
use roc_lang_scope::ScopeFault;
use roc_merge::{Refusal, merge};
use roc_merge_groups::Groups;
use roc_merge_groups::laws::merged_groups_are_accepted;
use roc_plan::Plan;
use roc_plan_make::{PlanFault, make_plan};
use roc_program::{PieceId, Workload};
use roc_scgraph::Vertex;
use roc_sequence::Sequence;
use roc_witness::shortest;
use std::alloc::Global;

/// The plan of a workload text in scope whose pieces may be cut as it declares them, up to merging: the workload in its merged
/// groups. Else the fault of the first step that finds one: the grammar, the scope, or the merging of pieces.
pub fn check(alloc: Global, text: &[u8]) -> Result<Plan, CheckFault>
    // The plan is that of the text, and a fault is that of the first step with one.
    ensures checked { IsCheckOf text.now result }
    // A text that has a plan is taken, unless memory runs out.
    ensures only { (plan : Grouped) → IsPlanOfText text.now plan → IsPlanned plan result }
{
    plans_are_unique();
    let source = match parse(alloc, text) {
        Ok(source) => source,
        Err(error) => return Err(fault_of_grammar(error)),
    };
    match resolve(alloc, source) {
        Ok(workload) => plan_of(alloc, workload),
        Err(fault) => Err(fault_of_scope(fault)),
    }
}

// What `parse` says of bytes that are no workload text.
fn fault_of_grammar(error: LangError) -> CheckFault
    ensures { (bytes : List ℕ) → TellsFirstFault bytes error → IsCheckFault bytes result }
{
    match error {
        LangError::At { line, what } => CheckFault::Lang(LangError::At { line, what }),
        LangError::NoMemory => CheckFault::NoMemory,
    }
}

// What `resolve` says of a tree that is not in scope.
fn fault_of_scope(fault: ScopeFault) -> CheckFault
    ensures { (bytes : List ℕ) (tree : Tree) → IsWorkloadText bytes tree → IsFirst (faults tree) fault → IsCheckFault bytes result }
{
    match fault {
        ScopeFault::At { line, what } => CheckFault::Scope(ScopeFault::At { line, what }),
        ScopeFault::NoMemory => CheckFault::NoMemory,
    }
}

// The plan of a workload, or why it has none.
fn plan_of(alloc: Global, workload: Workload) -> Result<Plan, CheckFault>
    ensures { IsJudged workload result }
{
    let Ok(classes) = promote(alloc, &workload) else {
        return Err(CheckFault::NoMemory);
    };
    match merge(alloc, &workload, &classes) {
        Ok(groups) => accepted(alloc, workload, classes, groups),
        Err(Refusal::Apart { p, q }) => Err(apart(alloc, workload, &classes, p, q)),
        Err(Refusal::Blocked { p, q, x }) => Err(blocked(alloc, workload, &classes, p, q, x)),
        Err(Refusal::NoMemory) => Err(CheckFault::NoMemory),
    }
}

// The plan of an acceptable workload.
fn accepted(
    alloc: Global,
    workload: Workload,
    classes: Classes,
    groups: Groups,
) -> Result<Plan, CheckFault>
    requires immediate { AreImmediate workload (is_immediate classes) }
    requires acceptable { IsAcceptable workload (is_immediate classes) }
    requires merged { IsMerged workload (is_immediate classes) groups }
    ensures { IsJudged workload result }
{
    // Such groups are accepted, since a workload is well formed by its type.
    merged_groups_are_accepted();
    let _ = workload.procedures();
    match make_plan(alloc, workload, classes, groups) {
        Ok(plan) => Ok(plan),
        Err(PlanFault::NoMemory) => Err(CheckFault::NoMemory),
        Err(PlanFault::Unfit) => unreachable!(),
    }
}

// That two pieces are apart, with their cycle.
fn apart(alloc: Global, workload: Workload, classes: &Classes, p: PieceId, q: PieceId) -> CheckFault
    requires immediate { AreImmediate workload (is_immediate classes.now) }
    requires apart { IsApart workload (is_immediate classes.now) p q }
    ensures { IsRefusalOf workload result }
{
    match cycle_of(alloc, &workload, classes, p, q) {
        Ok(cycle) => CheckFault::Apart {
            workload,
            p,
            q,
            cycle,
        },
        Err(_) => CheckFault::NoMemory,
    }
}

// That a piece is between two, with the cycle of these two.
fn blocked(
    alloc: Global,
    workload: Workload,
    classes: &Classes,
    p: PieceId,
    q: PieceId,
    x: PieceId,
) -> CheckFault
    requires immediate { AreImmediate workload (is_immediate classes.now) }
    requires blocked { IsBlocked workload (is_immediate classes.now) p q x }
    ensures { IsRefusalOf workload result }
{
    // Data flows forward in a well-formed workload.
    let _ = workload.procedures();
    match cycle_of(alloc, &workload, classes, p, q) {
        Ok(cycle) => CheckFault::Blocked {
            workload,
            p,
            q,
            x,
            cycle,
        },
        Err(_) => CheckFault::NoMemory,
    }
}

// The shortest cycle of two pieces of a procedure, where there is one.
fn cycle_of(
    alloc: Global,
    workload: &Workload,
    classes: &Classes,
    p: PieceId,
    q: PieceId,
) -> Result<Sequence<Vertex>, NoMemory>
    requires one_procedure { p.proc ≡ q.proc }
    requires cycle { (cycle : List Vertex) × IsCycleOf workload.now (is_immediate classes.now) p q cycle }
    ensures { IfOk result (IsShortestOf workload.now (is_immediate classes.now) p q) }
{
    match shortest(alloc, workload, classes, p, q) {
        Ok(Some(cycle)) => Ok(Sequence::from_vec(cycle)),
        Ok(None) => unreachable!(),
        Err(error) => Err(error),
    }
}
