//! Laws of conflicts and immediate pieces. Each is the contract of a function that does nothing.
ghost use Rattle.std.specs.Prelude.{◌≡◌, ◌↔◌, Bool, false, IsTrue};
ghost use Rattle.roc_program.specs.Conflict.{are_in_conflict};
ghost use Rattle.roc_program.specs.LookUps.{is_view_in};
ghost use Rattle.roc_program.specs.Pieces.{piece_of};
ghost use Rattle.roc_program.specs.Program.{Workload};
ghost use Rattle.roc_program.specs.WellFormed.{IsProgram};
ghost use Rattle.roc_program.specs.declared.piece_id.PieceId.{PieceId};
ghost use Rattle.roc_conflict.specs.Contended.{has_conflict};
ghost use Rattle.roc_conflict.specs.Immediate.{IsImmediate};
ghost use Rattle.roc_program.specs.Pieces.{HasPiece};

/// The immediate pieces are pieces of the program, hold those declared `now`, and hold with each
/// piece those in conflict with it; and each set that has the last two of these holds them.
pub fn immediate_pieces_are_the_least_set()
    ensures exist { (program : Workload) (id : PieceId) → IsImmediate program id → HasPiece program id }
    ensures declared { (program : Workload) (id : PieceId) → HasPiece program id → IsTrue (piece_of program id).is_now → IsImmediate program id }
    ensures closed { (program : Workload) (one other : PieceId) → IsImmediate program one → IsTrue (are_in_conflict program one other) → IsImmediate program other }
    ensures least { (program : Workload) (holds : PieceId → Bool)
        → ((id : PieceId) → HasPiece program id → IsTrue (piece_of program id).is_now → IsTrue (holds id))
        → ((one other : PieceId) → IsTrue (holds one) → IsTrue (are_in_conflict program one other) → IsTrue (holds other))
        → (id : PieceId) → IsImmediate program id → IsTrue (holds id) }
{}

/// Conflict is symmetric.
pub fn conflicts_are_symmetric()
    ensures { (program : Workload) (one other : PieceId) → are_in_conflict program one other ≡ are_in_conflict program other one }
{}

/// After promotion each conflict joins two immediate pieces or two deferrable ones.
pub fn conflicts_join_equals()
    ensures { (program : Workload) (one other : PieceId) → IsTrue (are_in_conflict program one other) → IsImmediate program one ↔ IsImmediate program other }
{}

/// A piece has a conflict exactly where there is a piece that it conflicts with.
pub fn conflicts_are_with_pieces()
    ensures { (program : Workload) (id : PieceId) → IsTrue (has_conflict program id) ↔ ((other : PieceId) × IsTrue (are_in_conflict program id other)) }
{}

/// A piece of a view is in conflict with no piece, itself included, and so it is not contended; and in a well-formed program
/// it is not immediate.
pub fn views_meet_nobody()
    ensures meet { (program : Workload) (one other : PieceId) → IsTrue (is_view_in program one.proc) → are_in_conflict program one other ≡ false }
    ensures alone { (program : Workload) (id : PieceId) → IsTrue (is_view_in program id.proc) → has_conflict program id ≡ false }
    ensures deferrable { (program : Workload) (id : PieceId) → IsProgram program → IsTrue (is_view_in program id.proc) → ¬ IsImmediate program id }
{}
