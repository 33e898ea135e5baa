//! The order of vertices, and of lists of them.
ghost use Rattle.std.specs.Prelude.{◌≡◌};
ghost use Rattle.roc_scgraph.specs.Graph.{is_vertex};
ghost use Rattle.roc_witness.specs.Order.{stands_before};
ghost use Rattle.roc_witness.specs.Inner.Candidates.{is_better};

use roc_scgraph::Vertex;

pub(crate) fn is_same(one: Vertex, other: Vertex) -> bool
    ensures { result ≡ is_vertex one other }
{
    one.proc == other.proc && one.instance == other.instance && one.piece == other.piece
}

// Whether a list comes before another by the first place at which they differ.
fn stands_before(one: &[Vertex], other: &[Vertex]) -> bool
    ensures { result ≡ stands_before one.now other.now }
{
    let (mut left, mut right) = (one, other);
    while let (Some((a, rest)), Some((b, behind))) = (left.split_first(), right.split_first()) {
        if a.is_before(*b) {
            return true;
        }
        if !is_same(*a, *b) {
            return false;
        }
        left = rest;
        right = behind;
    }
    left.is_empty() && !right.is_empty()
}

/// Whether a list is shorter than another, or as long and before it.
pub(crate) fn is_better(one: &[Vertex], other: &[Vertex]) -> bool
    ensures { result ≡ is_better one.now other.now }
{
    one.len() < other.len() || (one.len() == other.len() && stands_before(one, other))
}
