//! The shortest unreorderable cycle through the S-edge of two pieces.
ghost use Rattle.std.specs.Prelude.{◌≡◌, ◌≢◌, ◌↔◌, ◌≤◌, IsTrue, List, length, IfOk, IfSome, IfNone, if◌then◌else◌};
ghost use Rattle.std.specs.Option.{option_map};
ghost use Rattle.roc_program.specs.Pieces.{HasPiece};
ghost use Rattle.roc_conflict.specs.Classes.{is_immediate};
ghost use Rattle.roc_sequence.specs.Rising.{IsRising};
ghost use Rattle.roc_scgraph.specs.declared.vertex.Vertex.{Vertex};
ghost use Rattle.roc_scgraph.specs.Cycles.{first_instance};
ghost use Rattle.roc_scgraph.specs.Order.{is_before};
ghost use Rattle.roc_witness.specs.Order.{stands_before};
ghost use Rattle.roc_witness.specs.Shortest.{IsCycleOf};
ghost use Rattle.roc_witness.specs.Inner.Candidates as spec;

use crate::cycle::is_present;
use crate::order::is_better;
use crate::table::Table;
use crate::vertices::{open_vertices, vertices};
use crate::walks::Walks;
use roc_base::NoMemory;
use roc_conflict::Classes;
use roc_program::{PieceId, Workload, piece_count};
use roc_scgraph::{Instance, Vertex};
use std::alloc::{AllocError, Global};

/// The shortest unreorderable cycle that begins with the first instance of one piece and ends with that of another of its
/// procedure, so that their S-edge closes it; of the shortest the least, by procedure, piece and instance along the list. None
/// where there is none.
pub fn shortest(
    alloc: Global,
    workload: &Workload,
    classes: &Classes,
    p: PieceId,
    q: PieceId,
) -> Result<Option<Vec<Vertex>>, NoMemory>
    requires { p.proc ≡ q.proc }
    ensures is { IfOk result (λ o. IfSome o (λ c. IsCycleOf workload.now (is_immediate classes.now) p q c.items)) }
    ensures shortest { IfOk result (λ o. IfSome o (λ c. (d : List Vertex) → IsCycleOf workload.now (is_immediate classes.now) p q d → length c.items ≤ length d)) }
    ensures least { IfOk result (λ o. IfSome o
        (λ c. (d : List Vertex) → IsCycleOf workload.now (is_immediate classes.now) p q d → length d ≡ length c.items → ¬ IsTrue (stands_before d c.items))) }
    ensures none { IfOk result (λ o. IfNone o ((d : List Vertex) → IsCycleOf workload.now (is_immediate classes.now) p q d → ⊥)) }
{
    if !are_ends(workload, p, q) {
        return Ok(None);
    }
    let table = Table::of(alloc, workload, classes)?;
    let vertices = vertices(alloc, workload)?;
    best(
        alloc,
        &table,
        &vertices,
        p,
        q,
        piece_count(workload, p.proc),
    )
}

// Whether two pieces are different ones of the workload.
fn are_ends(workload: &Workload, p: PieceId, q: PieceId) -> bool
    ensures { IsTrue result ↔ ((p ≢ q) × HasPiece workload.now p × HasPiece workload.now q) }
{
    p != q && is_present(workload, first(p)) && is_present(workload, first(q))
}

// The best cycle that leaves the instance of p and q from one of its first pieces.
fn best(
    alloc: Global,
    table: &Table,
    vertices: &[Vertex],
    p: PieceId,
    q: PieceId,
    count: u16,
) -> Result<Option<Vec<Vertex>>, NoMemory>
    requires same { p.proc ≡ q.proc }
    requires rising { IsRising is_before vertices.now }
    ensures { IfOk result (λ o. spec.IsBest (spec.LeavesBelow vertices.now table.now p q count) (option_map (λ c. c.items) o)) }
{
    let mut best = None;
    for piece in 0..count {
        let found = leaving_from(alloc, table, vertices, p, q, piece)?;
        best = better_of(best, found);
    }
    Ok(best)
}

// The best that leaves it from this piece; none where that is q.
fn leaving_from(
    alloc: Global,
    table: &Table,
    vertices: &[Vertex],
    p: PieceId,
    q: PieceId,
    piece: u16,
) -> Result<Option<Vec<Vertex>>, NoMemory>
    requires same { p.proc ≡ q.proc }
    requires rising { IsRising is_before vertices.now }
    ensures { IfOk result (λ o. spec.IsBest (spec.LeavesFrom vertices.now table.now p q piece) (option_map (λ c. c.items) o)) }
{
    if piece == q.piece {
        return Ok(None);
    }
    let start = first(PieceId {
        proc: p.proc,
        piece,
    });
    let goal = first(q);
    let vertices = open_vertices(alloc, vertices, first(p), start, goal)?;
    let walks = Walks {
        start,
        goal,
        vertices,
    };
    let front = lead(alloc, p, piece)?;
    walks.shortest(alloc, table, &front)
}

// The first instance of a piece.
fn first(id: PieceId) -> Vertex
    ensures { result ≡ first_instance id }
{
    Vertex {
        proc: id.proc,
        piece: id.piece,
        instance: Instance::First,
    }
}

// The first instances of p and of the piece from which the cycle leaves their instance.
fn lead(alloc: Global, p: PieceId, piece: u16) -> Result<Vec<Vertex>, AllocError>
    ensures { IfOk result (λ vs. vs.items ≡ spec.lead p piece) }
{
    let mut lead = Vec::new(alloc);
    lead.push(first(p))?;
    if p.piece != piece {
        lead.push(first(PieceId {
            proc: p.proc,
            piece,
        }))?;
    }
    Ok(lead)
}

// The better of two, the first where neither is.
fn better_of(one: Option<Vec<Vertex>>, other: Option<Vec<Vertex>>) -> Option<Vec<Vertex>>
    ensures { option_map (λ c. c.items) result ≡ spec.better_of (option_map (λ c. c.items) one) (option_map (λ c. c.items) other) }
{
    match (one, other) {
        (Some(one), Some(other)) => Some(better(one, other)),
        (Some(one), None) => Some(one),
        (None, other) => other,
    }
}

fn better(one: Vec<Vertex>, other: Vec<Vertex>) -> Vec<Vertex>
    ensures { result.items ≡ (if spec.is_better other.items one.items then other.items else one.items) }
{
    if is_better(&other, &one) { other } else { one }
}
