//! Laws of runs, each the contract of a function that does nothing.
ghost use Rattle.std.specs.Prelude.{◌≡◌, ◌++◌, ℕ, ℤ, IsTrue, List};
ghost use Rattle.std.specs.List.{AllByRecursion};
ghost use Rattle.roc_rows.specs.Store.{Store};
ghost use Rattle.roc_program.specs.LookUps.{is_view_in};
ghost use Rattle.roc_program.specs.Program.{Piece, Workload};
ghost use Rattle.roc_program.specs.WellFormed.{ReadsOnly, IsProgram};
ghost use Rattle.roc_whole.specs.Run.{Progress, after_pieces, whole_run, behind};
ghost use Rattle.roc_whole.specs.Serial.{Call, procedure_at, serial_store, serial_answers};

/// What pieces do does not depend on what was said before them: they add to it.
pub fn replies_are_added_to()
    ensures { (said : List ℤ) (p : Progress) (pieces : List Piece) → after_pieces (behind said p) pieces ≡ behind said (after_pieces p pieces) }
{}

/// A serial run of two lists of calls, one behind the other, is the second's run on what the first
/// one's leaves.
pub fn serial_runs_compose()
    ensures answers { (w : Workload) (store : Store) (xs ys : List Call) → serial_answers w store (xs ++ ys) ≡ serial_answers w store xs ++ serial_answers w (serial_store w store xs) ys }
    ensures store { (w : Workload) (store : Store) (xs ys : List Call) → serial_store w store (xs ++ ys) ≡ serial_store w (serial_store w store xs) ys }
{}

/// Pieces that only read leave the cells as they are, and so does the whole run of a view.
pub fn views_leave_the_store()
    ensures pieces { (p : Progress) (pieces : List Piece) → AllByRecursion ReadsOnly pieces → (after_pieces p pieces).store ≡ p.store }
    ensures whole { (w : Workload) (proc : ℕ) (args : List ℤ) (store : Store) → IsProgram w → IsTrue (is_view_in w proc) → (whole_run (procedure_at w proc) args store).store ≡ store }
{}
