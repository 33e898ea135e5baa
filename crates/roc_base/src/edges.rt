//! Lists of predecessors, united by id.
ghost use Rattle.std.specs.Prelude.{◌≡◌, ◌≤◌, ◌<◌, ◌+◌, ◌++◌, ◌↔◌, ◌==◌, [], length, vec_len, IsTrue, IfOk, IfErr, OnOk, OnErr};
ghost use Rattle.std.specs.Vec.{vec_capacity};
ghost use Rattle.roc_base.specs.declared.id.TxnId.{TxnId};
ghost use Rattle.roc_base.specs.Edges.{IsEdgeList, comes_before, entry_at, all_of, unite_one, united};
ghost use Rattle.roc_sequence.specs.Rising.{IsRising};
ghost use Rattle.roc_base.specs.Inner.Place.{entry_place, IsAt, IsGapFor};

use crate::{Edge, NoMemory, TxnId};
use roc_sequence::Shared;
use std::alloc::{AllocError, Global};
use std::marker::Model;

/// A list of predecessors, rising strictly by id. Its copies share their entries until one of them is changed.
#[derive(Debug, Drop)]
pub struct Edges {
    entries: Shared<Edge>,
}

impl Model for Edges {
    ghost use Rattle.std.specs.Prelude.{List};
    ghost use Rattle.roc_base.specs.Edge.{Dependency};
    ghost use Rattle.roc_base.specs.Edges.{IsEdgeList};

    ghost Value = { List Dependency };

    ghost view = { λ e. e.entries };

    ghost invariant = { λ e. IsEdgeList e.entries };
}

impl Edges {
    /// No predecessors. Takes no memory.
    pub fn new(alloc: Global) -> Edges
        ensures { result ≡ [] }
    {
        Edges {
            entries: Shared::new(alloc),
        }
    }

    /// How many predecessors there are.
    pub fn len(&self) -> usize
        ensures { result ≡ length self.now }
    {
        self.entries.len()
    }

    /// Whether there are none.
    pub fn is_empty(&self) -> bool
        ensures { result ≡ (length self.now == 0) }
    {
        self.entries.is_empty()
    }

    /// The predecessors, rising strictly by id, each with a tag.
    pub fn as_slice(&self) -> &[Edge]
        ensures entries { result.now ≡ self.now }
        ensures list { IsEdgeList self.now }
    {
        self.entries.as_slice()
    }

    /// The entry of an id, where there is one. Takes no memory.
    pub fn find(&self, id: TxnId) -> Option<Edge>
        ensures { result ≡ entry_at id self.now }
    {
        let entries = self.entries.as_slice();
        match place(entries, id) {
            Ok(at) => Some(entries[at]),
            Err(_) => None,
        }
    }

    /// Unites this list with any edges, in any order and with any repetitions: of one id the tags
    /// are joined and the least shard is kept. `NoMemory` leaves the list as it was.
    pub fn unite(&mut self, added: &[Edge]) -> Result<(), NoMemory>
        // What is found at each id, and the same as one list.
        ensures found { OnOk result ((id : TxnId) → entry_at id self.new ≡ all_of id (self.old ++ added.now)) }
        ensures united { OnOk result (self.new ≡ united (self.old ++ added.now)) }

        ensures err { OnErr result (self.new ≡ self.old) }
    {
        let mut entries = self.entries.take(added.len())?;
        put_all(&mut entries, added);
        self.entries = Shared::from_vec(entries);
        Ok(())
    }
}

/// A copy is on the same allocator, and is the same list. It takes no memory, unless there was too little of it as the list was made.
impl Clone for Edges {
    ghost use Rattle.std.specs.Prelude.{◌≡◌};

    ghost is_clone = { λ from copy. copy ≡ from };

    fn clone(&self) -> Result<Edges, AllocError> {
        let entries = self.entries.clone()?;
        Ok(Edges { entries })
    }
}

impl PartialEq for Edges {
    ghost use Rattle.std.specs.Prelude.{◌≡◌, ◌↔◌, IsTrue};
    ghost use Rattle.roc_base.specs.Equality.{is_edges};
    ghost use Rattle.roc_base.specs.Equalities.{edges_per};

    ghost eq = { is_edges };

    ghost laws = { edges_per };

    /// Equal exactly where the lists are.
    fn eq(&self, other: &Edges) -> bool
        ensures test { result ≡ is_edges self.now other.now }
        ensures equal { IsTrue result ↔ (self.now ≡ other.now) }
    {
        self.as_slice() == other.as_slice()
    }
}

impl Eq for Edges {
    ghost use Rattle.roc_base.specs.Equalities.{edges_equivalence};

    ghost laws = { edges_equivalence };
}

// Where the entry of an id stands in a rising list, or else where it would go.
fn place(edges: &[Edge], id: TxnId) -> Result<usize, usize>
    requires { IsRising comes_before edges.now }
    ensures found { IfOk result (IsAt id edges.now) }
    ensures absent { IfErr result (IsGapFor id edges.now) }
{
    let at = entry_place(edges, id);
    if at < edges.len() && edges[at].from() == id {
        Ok(at)
    } else {
        Err(at)
    }
}

// How many entries of a rising list come before an id.
fn entry_place(edges: &[Edge], id: TxnId) -> usize
    requires { IsRising comes_before edges.now }
    ensures place { result ≡ entry_place id edges.now }
    ensures bound { result ≤ length edges.now }
{
    // Entries mostly come in their order, so the end is looked at first.
    let len = edges.len();
    if len > 0 && edges[len - 1].from() < id {
        return len;
    }
    edges.partition_point(|edge| edge.from() < id)
}

// Adds edges to a rising list that has room for them.
fn put_all(edges: &mut Vec<Edge>, added: &[Edge])
    requires list { IsEdgeList edges.old.items }
    requires room { vec_len edges.old + length added.now ≤ vec_capacity edges.old }
    ensures list { IsEdgeList edges.new.items }
    ensures items { edges.new.items ≡ united (edges.old.items ++ added.now) }
{
    for edge in added {
        put(edges, *edge);
    }
}

// Adds an edge to a rising list that has room for one more.
fn put(edges: &mut Vec<Edge>, edge: Edge)
    requires list { IsEdgeList edges.old.items }
    requires room { vec_len edges.old < vec_capacity edges.old }
    ensures list { IsEdgeList edges.new.items }
    ensures items { edges.new.items ≡ unite_one edge edges.old.items }
    ensures len { vec_len edges.new ≤ vec_len edges.old + 1 }
    ensures capacity { vec_capacity edges.old ≤ vec_capacity edges.new }
{
    match place(edges, edge.from()) {
        Ok(at) => edges[at] = edge.joined(edges[at]),
        Err(at) => edges.insert(at, edge).unwrap(),
    }
}
