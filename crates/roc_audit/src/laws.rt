//! A law of serial witnesses, the contract of a function that does nothing.
ghost use Rattle.std.specs.Prelude.{Bool, List};
ghost use Rattle.roc_base.specs.declared.id.TxnId.{TxnId};
ghost use Rattle.roc_program.specs.Program.{Workload};
ghost use Rattle.roc_rows.specs.Store.{Store};
ghost use Rattle.roc_audit.specs.declared.entry.Entry.{Entry};
ghost use Rattle.roc_audit.specs.Witness.{IsSerialWitnessFrom};
ghost use Rattle.roc_audit.specs.Woven.{Look, woven, without_views, LeaveTheStore, AreLooks};

/// A serial witness stays one with views put in: if an order explains what a history tells of the other transactions, and each view stands
/// behind so many of the order as it read, then the two woven together explain the whole history, from the same store on.
pub fn woven_is_a_witness()
    ensures { (program : Workload) (store : Store) (is_view : TxnId → Bool) (history : List Entry) (order : List TxnId) (looks : List Look)
        → LeaveTheStore program is_view history → IsSerialWitnessFrom program store (without_views is_view history) order
        → AreLooks program store is_view history order looks → IsSerialWitnessFrom program store history (woven 0 order looks) }
{}
