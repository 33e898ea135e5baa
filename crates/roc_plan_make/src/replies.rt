//! Where a group's values stand: in the bound list of another group, and in the reply.
ghost use Rattle.std.specs.Prelude.{◌≡◌, ◌==◌, ◌<◌, ◌≤◌, [], ◌++◌, length, map, take, position, slice_index_or, count_by, IfOk, OnOk};
ghost use Rattle.std.specs.List.{AllByRecursion, position_or_len};
ghost use Rattle.roc_program.specs.Names.{has_name, outputs};
ghost use Rattle.roc_program.specs.Parts as view;
ghost use Rattle.roc_plan.specs.Groups.{places_in, outs_in};
ghost use Rattle.roc_plan_make.specs.Inner.Built.{source_by};
ghost use Rattle.roc_plan.specs.Sized.{IsSized};
ghost use Rattle.roc_plan_make.specs.Inner.Counts as counts;

use roc_base::NoMemory;
use roc_plan::Input;
use roc_program::{Procedure, Statement};
use std::alloc::{AllocError, Global};

/// Where the values of these names come from, by what each group binds.
pub fn inputs_from(
    alloc: Global,
    bounds: &[Vec<u16>],
    names: &[u16],
) -> Result<Vec<Input>, NoMemory>
    requires few { length bounds.now ≤ 16 }
    requires short { AllByRecursion (λ row. length row ≤ 1024) (map (λ row. row.items) bounds.now) }
    ensures { IfOk result (λ inputs. inputs.items ≡ map (source_by (map (λ row. row.items) bounds.now)) names.now) }
{
    let mut inputs = Vec::new(alloc);
    for name in names {
        inputs.push(source_of(bounds, *name))?;
    }
    Ok(inputs)
}

// The first group that binds a name, and the name's place there.
fn source_of(bounds: &[Vec<u16>], name: u16) -> Input
    requires few { length bounds.now ≤ 16 }
    requires short { AllByRecursion (λ row. length row ≤ 1024) (map (λ row. row.items) bounds.now) }
    ensures { result ≡ source_by (map (λ row. row.items) bounds.now) name }
{
    let group = binder_of(bounds, name);
    let at = place_at(bounds, group, name);
    Input {
        group: group as u16,
        at: at as u16,
    }
}

// The place of a name in a group's bound list; a group that is not there binds none.
fn place_at(bounds: &[Vec<u16>], group: usize, name: u16) -> usize
    requires { AllByRecursion (λ row. length row ≤ 1024) (map (λ row. row.items) bounds.now) }
    ensures place { result ≡ position_or_len (λ m. m == name) (slice_index_or (map (λ row. row.items) bounds.now) group []) }
    ensures few { result ≤ 1024 }
{
    if group < bounds.len() {
        place_among(&bounds[group], name)
    } else {
        0
    }
}

// The first group that binds a name, or how many there are.
fn binder_of(bounds: &[Vec<u16>], name: u16) -> usize
    ensures place { result ≡ position_or_len (λ row. has_name row.items name) bounds.now }
    ensures few { result ≤ length bounds.now }
{
    find_binder(bounds, name).unwrap_or(bounds.len())
}

fn find_binder(bounds: &[Vec<u16>], name: u16) -> Option<usize>
    ensures { result ≡ position (λ row. has_name row.items name) bounds.now }
{
    bounds.iter().position(|row| row.contains(&name))
}

// The place of a name among these, or how many there are.
fn place_among(names: &[u16], name: u16) -> usize
    ensures place { result ≡ position_or_len (λ m. m == name) names.now }
    ensures few { result ≤ length names.now }
{
    find_name(names, name).unwrap_or(names.len())
}

fn find_name(names: &[u16], name: u16) -> Option<usize>
    ensures { result ≡ position (λ m. m == name) names.now }
{
    names.iter().position(|other| *other == name)
}

/// The places in the reply of what these pieces add to it.
pub fn outs_of(alloc: Global, procedure: &Procedure, pieces: &[u16]) -> Result<Vec<u16>, NoMemory>
    requires sized { IsSized (view.procedure procedure.now) }
    requires pieces { AllByRecursion (λ k. k < length (view.procedure procedure.now).pieces) pieces.now }
    ensures { IfOk result (λ places. places.items ≡ outs_in (view.procedure procedure.now) pieces.now) }
{
    let mut places = Vec::new(alloc);
    for piece in pieces {
        push_places(procedure, *piece, &mut places)?;
    }
    Ok(places)
}

// Adds those of a piece.
fn push_places(procedure: &Procedure, piece: u16, places: &mut Vec<u16>) -> Result<(), AllocError>
    requires sized { IsSized (view.procedure procedure.now) }
    requires piece { piece < length (view.procedure procedure.now).pieces }
    ensures { OnOk result (places.new.items ≡ places.old.items ++ places_in (view.procedure procedure.now) piece) }
{
    let before = outs_before(procedure, piece);
    let own = outs(&procedure.pieces[usize::from(piece)].body);
    for at in 0..own {
        places.push((before + at) as u16)?;
    }
    Ok(())
}

// How many values the pieces before this one add to the reply.
fn outs_before(procedure: &Procedure, piece: u16) -> usize
    requires sized { IsSized (view.procedure procedure.now) }
    requires piece { piece < length (view.procedure procedure.now).pieces }
    ensures value { result ≡ length (outputs (take piece (view.procedure procedure.now).pieces)) }
    ensures few { result ≤ 1024 }
{
    let mut count = 0;
    for before in 0..usize::from(piece) {
        count += outs(&procedure.pieces[before].body);
    }
    count
}

// How many values statements add to the reply.
fn outs(body: &[Statement]) -> usize
    ensures { result ≡ count_by counts.is_out body.now }
{
    let mut count = 0;
    for statement in body {
        if is_out(statement) {
            count += 1;
        }
    }
    count
}

#[tactic(auto, unfolding(crate::specs::Inner::Counts::is_out))]
fn is_out(statement: &Statement) -> bool
    ensures { result ≡ counts.is_out statement.now }
{
    matches!(statement, Statement::Out(_))
}
