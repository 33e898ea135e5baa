//! The test of a cycle.
ghost use Rattle.std.specs.Prelude.{◌≡◌, ◌↔◌, ◌∷◌, IsTrue};
ghost use Rattle.std.specs.List.{AllByRecursion, list_all, list_any};
ghost use Rattle.roc_sequence.specs.Places.{NoneTwice};
ghost use Rattle.roc_program.specs.Pieces.{HasPiece};
ghost use Rattle.roc_conflict.specs.Classes.{is_immediate};
ghost use Rattle.roc_scgraph.specs.Graph.{piece_id, is_vertex, edge};
ghost use Rattle.roc_scgraph.specs.Cycles.{IsUnreorderable, steps_to, is_fixed, is_sibling_edge, is_conflict_edge};

use roc_conflict::Classes;
use roc_program::{Workload, piece_count, procedure_count};
use roc_scgraph::{Kind, Vertex, edge};

/// Whether a list of vertices is an unreorderable cycle: at least three vertices of the graph, none twice, neighbours joined
/// and the last with the first, by one S-edge and one C-edge at least, and each C-edge with immediate pieces at both ends.
/// Takes no memory.
pub fn is_unreorderable(workload: &Workload, classes: &Classes, cycle: &[Vertex]) -> bool
    ensures { IsTrue result ↔ IsUnreorderable workload.now (is_immediate classes.now) cycle.now }
{
    match cycle.split_first() {
        Some((first, rest)) => closes(workload, classes, cycle, *first, rest),
        None => false,
    }
}

// The same of a list by its first vertex and the rest.
fn closes(
    workload: &Workload,
    classes: &Classes,
    cycle: &[Vertex],
    first: Vertex,
    rest: &[Vertex],
) -> bool
    requires { cycle.now ≡ first ∷ rest.now }
    ensures { IsTrue result ↔ IsUnreorderable workload.now (is_immediate classes.now) cycle.now }
{
    if rest.len() < 2 {
        return false;
    }
    if !are_present(workload, cycle) {
        return false;
    }
    if !are_distinct(cycle) {
        return false;
    }
    if !are_fixed(workload, classes, first, rest) {
        return false;
    }
    if !has_sibling(workload, classes, first, rest) {
        return false;
    }
    has_conflict(workload, classes, first, rest)
}

// Whether the graph has these vertices.
fn are_present(workload: &Workload, vertices: &[Vertex]) -> bool
    ensures { IsTrue result ↔ AllByRecursion (λ v. HasPiece workload.now (piece_id v)) vertices.now }
{
    for vertex in vertices {
        if !is_present(workload, *vertex) {
            return false;
        }
    }
    true
}

pub(crate) fn is_present(workload: &Workload, vertex: Vertex) -> bool
    ensures { IsTrue result ↔ HasPiece workload.now (piece_id vertex) }
{
    vertex.proc < procedure_count(workload) && vertex.piece < piece_count(workload, vertex.proc)
}

fn is_same(one: Vertex, other: Vertex) -> bool
    ensures { result ≡ is_vertex one other }
{
    one.proc == other.proc && one.instance == other.instance && one.piece == other.piece
}

fn is_among(vertex: Vertex, others: &[Vertex]) -> bool
    ensures { result ≡ list_any (is_vertex vertex) others.now }
{
    others.iter().any(|other| is_same(vertex, *other))
}

// Whether none stands there twice.
fn are_distinct(vertices: &[Vertex]) -> bool
    ensures { IsTrue result ↔ NoneTwice is_vertex vertices.now }
{
    let mut rest = vertices;
    while let Some((first, behind)) = rest.split_first() {
        if is_among(*first, behind) {
            return false;
        }
        rest = behind;
    }
    true
}

// Whether an edge stands in the way of reordering.
fn is_fixed(edge: Option<Kind>) -> bool
    ensures { result ≡ is_fixed edge }
{
    match edge {
        None => false,
        Some(Kind::S) => true,
        Some(Kind::C { immediate }) => immediate,
    }
}

// Whether each edge of a cycle does.
fn are_fixed(workload: &Workload, classes: &Classes, first: Vertex, rest: &[Vertex]) -> bool
    ensures { result ≡ list_all (λ n. is_fixed (edge workload.now (is_immediate classes.now) n.0 n.1)) (steps_to first rest.now first) }
{
    let mut from = first;
    for next in rest {
        if !is_fixed(edge(workload, classes, from, *next)) {
            return false;
        }
        from = *next;
    }
    is_fixed(edge(workload, classes, from, first))
}

fn is_sibling_edge(edge: Option<Kind>) -> bool
    ensures { result ≡ is_sibling_edge edge }
{
    matches!(edge, Some(Kind::S))
}

// Whether an edge of a cycle joins siblings.
fn has_sibling(workload: &Workload, classes: &Classes, first: Vertex, rest: &[Vertex]) -> bool
    ensures { result ≡ list_any (λ n. is_sibling_edge (edge workload.now (is_immediate classes.now) n.0 n.1)) (steps_to first rest.now first) }
{
    let mut from = first;
    for next in rest {
        if is_sibling_edge(edge(workload, classes, from, *next)) {
            return true;
        }
        from = *next;
    }
    is_sibling_edge(edge(workload, classes, from, first))
}

fn is_conflict_edge(edge: Option<Kind>) -> bool
    ensures { result ≡ is_conflict_edge edge }
{
    matches!(edge, Some(Kind::C { .. }))
}

// Whether an edge of a cycle is a conflict.
fn has_conflict(workload: &Workload, classes: &Classes, first: Vertex, rest: &[Vertex]) -> bool
    ensures { result ≡ list_any (λ n. is_conflict_edge (edge workload.now (is_immediate classes.now) n.0 n.1)) (steps_to first rest.now first) }
{
    let mut from = first;
    for next in rest {
        if is_conflict_edge(edge(workload, classes, from, *next)) {
            return true;
        }
        from = *next;
    }
    is_conflict_edge(edge(workload, classes, from, first))
}
