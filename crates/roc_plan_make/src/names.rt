//! The names of a group: what it binds, and what it takes from other groups.
ghost use Rattle.std.specs.Prelude.{◌≡◌, not, ◌&&◌, ◌<◌, [], ◌∷◌, ◌++◌, length, map, IfOk, OnOk};
ghost use Rattle.std.specs.List.{AllByRecursion, list_any, filter_map};
ghost use Rattle.roc_program.specs.Names as naming;
ghost use Rattle.roc_program.specs.Parts as view;
ghost use Rattle.roc_merge_groups.specs.Groups.{groups_in};
ghost use Rattle.roc_merge_groups.specs.Grouping.{IsGrouping};
ghost use Rattle.roc_plan.specs.Groups.{bound_in, inputs_in};
ghost use Rattle.roc_plan.specs.Sized.{piece_at, IsSized};

use roc_base::NoMemory;
use roc_merge_accept::piece_uses;
use roc_merge_groups::Groups;
use roc_program::{Procedure, Statement};
use std::alloc::{AllocError, Global};

/// Of each group of a procedure the names that it binds.
pub fn bound_names(
    alloc: Global,
    procedure: &Procedure,
    groups: &Groups,
    proc: u16,
) -> Result<Vec<Vec<u16>>, NoMemory>
    requires grouping { IsGrouping (length (view.procedure procedure.now).pieces) (groups_in groups.now proc) }
    requires sized { IsSized (view.procedure procedure.now) }
    ensures { IfOk result (λ rows. map (λ row. row.items) rows.items ≡ map (bound_in (view.procedure procedure.now)) (groups_in groups.now proc)) }
{
    let mut rows = Vec::new(alloc);
    for group in 0..groups.group_count(proc) {
        let names = names_bound(alloc, procedure, groups.pieces(proc, group as u16))?;
        rows.push(names)?;
    }
    Ok(rows)
}

// The names that these pieces bind.
fn names_bound(alloc: Global, procedure: &Procedure, pieces: &[u16]) -> Result<Vec<u16>, NoMemory>
    requires { AllByRecursion (λ k. k < length (view.procedure procedure.now).pieces) pieces.now }
    ensures { IfOk result (λ names. names.items ≡ bound_in (view.procedure procedure.now) pieces.now) }
{
    let mut names = Vec::new(alloc);
    for piece in pieces {
        push_bound(&procedure.pieces[usize::from(*piece)].body, &mut names)?;
    }
    Ok(names)
}

// Adds the names that statements bind.
fn push_bound(body: &[Statement], names: &mut Vec<u16>) -> Result<(), AllocError>
    ensures { OnOk result (names.new.items ≡ names.old.items ++ filter_map naming.binding (map view.statement body.now)) }
{
    for statement in body {
        push_name(statement, names)?;
    }
    Ok(())
}

fn push_name(statement: &Statement, names: &mut Vec<u16>) -> Result<(), AllocError>
    ensures { OnOk result (names.new.items ≡ names.old.items ++ filter_map naming.binding (view.statement statement.now ∷ [])) }
{
    let Statement::Get(number, _) = statement else {
        return Ok(());
    };
    names.push(*number)?;
    Ok(())
}

/// The names of other groups' pieces that these pieces use, in the order in which they are bound. `own` are those that they bind.
pub fn input_names(
    alloc: Global,
    procedure: &Procedure,
    pieces: &[u16],
    own: &[u16],
) -> Result<Vec<u16>, NoMemory>
    requires sized { IsSized (view.procedure procedure.now) }
    requires pieces { AllByRecursion (λ k. k < length (view.procedure procedure.now).pieces) pieces.now }
    requires own { own.now ≡ bound_in (view.procedure procedure.now) pieces.now }
    ensures { IfOk result (λ names. names.items ≡ inputs_in (view.procedure procedure.now) pieces.now) }
{
    let mut names = Vec::new(alloc);
    for name in procedure.arguments..procedure.names {
        if is_taken(procedure, pieces, own, name) {
            names.push(name)?;
        }
    }
    Ok(names)
}

// Whether the pieces use a name that they do not bind.
fn is_taken(procedure: &Procedure, pieces: &[u16], own: &[u16], name: u16) -> bool
    requires { AllByRecursion (λ k. k < length (view.procedure procedure.now).pieces) pieces.now }
    ensures { result ≡ (list_any (λ k. naming.piece_uses (piece_at (view.procedure procedure.now) k) name) pieces.now && not (naming.has_name own.now name)) }
{
    are_using(procedure, pieces, name) && !own.contains(&name)
}

fn are_using(procedure: &Procedure, pieces: &[u16], name: u16) -> bool
    requires { AllByRecursion (λ k. k < length (view.procedure procedure.now).pieces) pieces.now }
    ensures { result ≡ list_any (λ k. naming.piece_uses (piece_at (view.procedure procedure.now) k) name) pieces.now }
{
    for piece in pieces {
        if piece_uses(&procedure.pieces[usize::from(*piece)], name) {
            return true;
        }
    }
    false
}
