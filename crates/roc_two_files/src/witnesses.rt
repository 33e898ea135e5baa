//! Two serial witnesses, one behind the other; a program that has grown; and views that are put into two orders, one behind the other.
ghost use Rattle.std.specs.Prelude.{◌≡◌, ◌≢◌, ◌≤◌, ◌<◌, ℕ, ℤ, List, ◌++◌, length, map};
ghost use Rattle.roc_sequence.specs.Lists.{Has};
ghost use Rattle.roc_base.specs.declared.id.TxnId.{TxnId};
ghost use Rattle.roc_program.specs.Program.{Workload};
ghost use Rattle.roc_rows.specs.Store.{Store};
ghost use Rattle.roc_whole.specs.Serial.{Call, run_of, serial_store};
ghost use Rattle.roc_audit.specs.declared.entry.Entry.{Entry};
ghost use Rattle.roc_audit.specs.declared.entry.Entry.TheVariants.{Submitted};
ghost use Rattle.roc_audit.specs.History.{WasSubmitted, WasAnswered};
ghost use Rattle.roc_audit.specs.Witness.{submitted_calls, IsSerialWitnessFrom};
ghost use Rattle.roc_audit.specs.Woven.{Look};
ghost use Rattle.roc_law_world.specs.Witness.{was_answered, last_looks, witness_in};
ghost use Rattle.roc_epoch.specs.Grown.{IsGrownFrom};
ghost use Rattle.roc_two_files.specs.Orders.{later_by};

/// Where one order explains a history, and another one explains another history from what the first one leaves, and no id is submitted in both, the two
/// orders, one behind the other, explain both histories.
pub fn witnesses_compose()
    ensures { (program : Workload) (store : Store) (first second : List Entry) (front behind : List TxnId)
        → IsSerialWitnessFrom program store first front
        → IsSerialWitnessFrom program (serial_store program store (submitted_calls first front)) second behind
        → ((t : TxnId) → WasSubmitted first t → ¬ WasSubmitted second t)
        → IsSerialWitnessFrom program store (first ++ second) (front ++ behind) }
{}

/// A procedure of the old program runs under the grown one as it did.
pub fn old_calls_run_alike()
    ensures { (old new : Workload) → IsGrownFrom old new → (call : Call) → call.procedure < length old.procedures → (store : Store)
        → run_of new store call ≡ run_of old store call }
{}

/// What explains a history under the old program does so under the grown one, and leaves the same cells, where each submission is of an old procedure.
pub fn old_witnesses_are_new()
    ensures witness { (old new : Workload) → IsGrownFrom old new → (store : Store) (history : List Entry) (order : List TxnId)
        → ((t : TxnId) (proc : ℕ) (args : List ℤ) → Has (Submitted t proc args) history → proc < length old.procedures)
        → IsSerialWitnessFrom old store history order → IsSerialWitnessFrom new store history order }
    ensures store { (old new : Workload) → IsGrownFrom old new → (store : Store) (history : List Entry) (order : List TxnId)
        → ((t : TxnId) (proc : ℕ) (args : List ℤ) → Has (Submitted t proc args) history → proc < length old.procedures)
        → serial_store new store (submitted_calls history order) ≡ serial_store old store (submitted_calls history order) }
{}

/// Views are put into two orders, one behind the other, as into each of them alone: where none that is shown of the first looks is behind more than its
/// order has, no id looks in both, and none that looks in one is answered in the other's history.
pub fn woven_orders_join()
    ensures { (first second : List Entry) (front behind : List TxnId) (looks more : List Look)
        → ((l : Look) → Has l (last_looks (was_answered first) looks) → l.behind ≤ length front)
        → ((k l : Look) → Has k looks → Has l more → k.id ≢ l.id)
        → ((l : Look) (reply : List ℤ) → Has l looks → ¬ WasAnswered second l.id reply)
        → ((l : Look) (reply : List ℤ) → Has l more → ¬ WasAnswered first l.id reply)
        → witness_in (first ++ second) (front ++ behind) (looks ++ map (later_by (length front)) more) ≡ witness_in first front looks ++ witness_in second behind more }
{}
