//! The edges of the graph.
ghost use Rattle.std.specs.Prelude.{◌≡◌};
ghost use Rattle.roc_conflict.specs.Classes.{is_immediate};
ghost use Rattle.roc_scgraph.specs.Graph.{edge, are_siblings};

use crate::{Kind, Vertex};
use roc_conflict::Classes;
use roc_program::{Workload, conflict};

/// What joins two vertices, if anything does: an S-edge where they are different pieces of one instance, a C-edge where they
/// are of different instances (of one procedure, or of two, whatever the numbers of the instances) and their pieces conflict.
/// Takes no memory.
pub fn edge(workload: &Workload, classes: &Classes, one: Vertex, other: Vertex) -> Option<Kind>
    ensures { result ≡ edge workload.now (is_immediate classes.now) one other }
{
    if are_siblings(one, other) {
        if one.piece == other.piece {
            None
        } else {
            Some(Kind::S)
        }
    } else if conflict(workload, one.id(), other.id()) {
        let immediate = classes.is_immediate(one.id()) && classes.is_immediate(other.id());
        Some(Kind::C { immediate })
    } else {
        None
    }
}

// Whether two vertices belong to one instance of one procedure.
fn are_siblings(one: Vertex, other: Vertex) -> bool
    ensures { result ≡ are_siblings one other }
{
    one.proc == other.proc && one.instance == other.instance
}
