//! The vertices of the graph.
ghost use Rattle.std.specs.Prelude.{◌≡◌, ◌++◌, ◌<◌, IfOk, OnOk};
ghost use Rattle.std.specs.List.{flat_map, range_with_len};
ghost use Rattle.roc_witness.specs.Inner.Vertices.{instances_of, vertices, is_open, open_vertices};

use crate::order::is_same;
use roc_base::NoMemory;
use roc_program::{Workload, piece_count, procedure_count};
use roc_scgraph::{Instance, Vertex};
use roc_sequence::Sequence;
use std::alloc::{AllocError, Global};

/// All vertices, in their order.
pub(crate) fn vertices(alloc: Global, workload: &Workload) -> Result<Vec<Vertex>, NoMemory>
    ensures { IfOk result (λ vs. vs.items ≡ vertices workload.now) }
{
    let mut vertices = Vec::new(alloc);
    for proc in 0..procedure_count(workload) {
        push_vertices(&mut vertices, proc, piece_count(workload, proc))?;
    }
    Ok(vertices)
}

// Adds those of the first pieces of a procedure.
fn push_vertices(vertices: &mut Vec<Vertex>, proc: u16, count: u16) -> Result<(), AllocError>
    ensures { OnOk result (vertices.new.items ≡ vertices.old.items ++ flat_map (instances_of proc) (range_with_len 0 count)) }
{
    for piece in 0..count {
        vertices.push(Vertex {
            proc,
            piece,
            instance: Instance::First,
        })?;
        vertices.push(Vertex {
            proc,
            piece,
            instance: Instance::Second,
        })?;
    }
    Ok(())
}

fn is_open(vertex: Vertex, first: Vertex, start: Vertex, last: Vertex) -> bool
    ensures { result ≡ is_open first start last vertex }
{
    !is_same(vertex, first) && !is_same(vertex, start) && !is_same(vertex, last)
}

/// Those but for the ends of a cycle and the vertex from which it leaves their instance.
pub(crate) fn open_vertices(
    alloc: Global,
    vertices: &[Vertex],
    first: Vertex,
    start: Vertex,
    last: Vertex,
) -> Result<Sequence<Vertex>, NoMemory>
    ensures { IfOk result (λ vs. vs ≡ open_vertices vertices.now first start last) }
{
    let open = vertices
        .iter()
        .copied()
        .filter(|vertex| is_open(*vertex, first, start, last))
        .collect(alloc)?;
    Ok(Sequence::from_vec(open))
}
