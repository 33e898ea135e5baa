//! Laws of the graph. Each is the contract of a function that does nothing.
ghost use Rattle.std.specs.Prelude.{◌≡◌, ◌≢◌, ◌↔◌, Bool, List, [], ◌∷◌, ◌++◌, length, ◌≤◌, IsTrue};
ghost use Rattle.roc_sequence.specs.Lists.{Has};
ghost use Rattle.roc_program.specs.Program.{Workload};
ghost use Rattle.roc_program.specs.declared.piece_id.PieceId.{PieceId};
ghost use Rattle.roc_conflict.specs.Immediate.{IsImmediate};
ghost use Rattle.roc_conflict.specs.Contended.{is_contended};
ghost use Rattle.roc_scgraph.specs.declared.vertex.Vertex.{Vertex};
ghost use Rattle.roc_scgraph.specs.Graph.{are_siblings};
ghost use Rattle.roc_scgraph.specs.Cycles.{neighbours, first_instance, IsUnreorderable, HasTwoContended};

/// A procedure has an unreorderable cycle through an S-edge of its own exactly where two of its immediate pieces are contended,
/// and then one goes through the S-edge of each two such pieces, with at most six vertices.
pub fn cycles_are_between_contended_pieces()
    ensures only { (program : Workload) (is_immediate : PieceId → Bool) → ((id : PieceId) → IsTrue (is_immediate id) ↔ IsImmediate program id)
        → (cycle : List Vertex) (a b : Vertex) → IsUnreorderable program is_immediate cycle → Has (a, b) (neighbours cycle) → IsTrue (are_siblings a b)
        → HasTwoContended program is_immediate a.proc }
    ensures each { (program : Workload) (is_immediate : PieceId → Bool) → ((id : PieceId) → IsTrue (is_immediate id) ↔ IsImmediate program id)
        → (p q : PieceId) → p ≢ q → p.proc ≡ q.proc → IsTrue (is_contended program is_immediate p) → IsTrue (is_contended program is_immediate q)
        → (between : List Vertex) × IsUnreorderable program is_immediate (first_instance p ∷ (between ++ first_instance q ∷ [])) × (length between ≤ 4) }
{}
