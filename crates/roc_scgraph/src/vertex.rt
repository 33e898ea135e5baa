//! The vertices of the graph, and what joins them.
use roc_program::PieceId;

/// One of the two instances of each procedure that the graph looks at.
#[derive(Clone, Copy, PartialEq, Eq, PartialOrd, Ord)]
pub enum Instance {
    First,
    Second,
}

/// A piece of an instance of its procedure, by the numbers of procedure and piece; [`Vertex::is_before`] says how they are ordered.
#[derive(Clone, Copy, PartialEq, Eq, PartialOrd, Ord)]
pub struct Vertex {
    pub proc: u16,
    pub piece: u16,
    pub instance: Instance,
}

/// What joins two vertices: they are siblings of one instance, or their pieces conflict, and `immediate` tells whether both
/// pieces are (transaction chopping, TODS 1995; ROCOCO, OSDI 2014).
#[derive(Clone, Copy, PartialEq, Eq)]
pub enum Kind {
    S,
    C { immediate: bool },
}

impl Vertex {
    ghost use Rattle.std.specs.Prelude.{◌≡◌};
    ghost use Rattle.roc_scgraph.specs.Graph.{piece_id};
    ghost use Rattle.roc_scgraph.specs.Order.{is_before};

    /// Whether it comes before another: by procedure, then by piece, then by instance.
    pub fn is_before(self, other: Vertex) -> bool
        ensures { result ≡ is_before self other }
    {
        self < other
    }

    /// The piece that it stands for.
    pub fn id(self) -> PieceId
        ensures { result ≡ piece_id self }
    {
        PieceId {
            proc: self.proc,
            piece: self.piece,
        }
    }
}
