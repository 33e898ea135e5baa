//! The law about orders, and what it stands on. Each law is the contract of a function that does nothing.
ghost use Rattle.std.specs.Prelude.{◌≡◌, List, ◌++◌, IsTrue};
ghost use Rattle.std.specs.List.{AllByRecursion};
ghost use Rattle.roc_sequence.specs.Places.{IsListed, IsListedBefore, NoneTwice};
ghost use Rattle.roc_base.specs.declared.id.TxnId.{TxnId};
ghost use Rattle.roc_base.specs.TxnId.{is_txn};
ghost use Rattle.roc_rows.specs.declared.cell.Cell.{Cell};
ghost use Rattle.roc_rows.specs.Store.{Store, read};
ghost use Rattle.roc_law_orders.specs.Behaviour.{TxnGroup, is_txn_group, is_group_number, is_written, Behaviour, IsLawful};
ghost use Rattle.roc_law_orders.specs.Runs.{needs, inputs_at, stage_behind, stage_before, uses_in, account};
ghost use Rattle.roc_law_orders.specs.Orders.{IsRealRun, one_by_one, Follows, StandOneByOne};
ghost use Rattle.roc_law_orders.specs.Growth.{Stays};
ghost use Rattle.roc_law_orders.specs.Counter.{counter};

use roc_rows::laws::reads_after_writes;

/// Each group that ran of a transaction of the order sees and does, where the order's transactions run one after another, what it saw
/// and did.
pub fn runs_are_serial()
    ensures { (B : Behaviour) (start : Store) (R : List TxnGroup) (O : List TxnId) → IsLawful B → IsRealRun B R → Follows B start R O
        → (r : TxnGroup) → IsListed is_txn_group R r → IsListed is_txn O r.txn → account B start (one_by_one B O) r ≡ account B start R r }
{}

/// A cell holds behind all groups that ran what it holds where the order's transactions run one after another, if all groups that may
/// write it ran and are of the order.
pub fn last_values_are_serial()
    ensures { (B : Behaviour) (start : Store) (R : List TxnGroup) (O : List TxnId) → IsLawful B → IsRealRun B R → Follows B start R O
        → (x : Cell)
        → ((q : TxnGroup) → IsListed is_txn_group R q → IsTrue (is_written x (uses_in B start R q)) → IsListed is_txn O q.txn)
        → ((q : TxnGroup) → IsListed is_txn O q.txn → IsListed is_group_number (B.groups q.txn) q.group → IsTrue (is_written x (uses_in B start R q)) → IsListed is_txn_group R q)
        → read (stage_behind B start (one_by_one B O)).store x ≡ read (stage_behind B start R).store x }
{}

/// The premises can be met: transactions one by one are a real run, and their order follows its conflicts.
pub fn serial_runs_follow()
    ensures real { (B : Behaviour) (O : List TxnId) → IsLawful B → NoneTwice is_txn O → IsRealRun B (one_by_one B O) }
    ensures follows { (B : Behaviour) (start : Store) (O : List TxnId) → IsLawful B → NoneTwice is_txn O → Follows B start (one_by_one B O) O }
{}

/// What is asked of a behaviour can be met.
pub fn counter_is_lawful()
    ensures { IsLawful counter }
{
    reads_after_writes();
}

/// Where groups stand one by one.
pub fn groups_stand_one_by_one()
    ensures { (B : Behaviour) (O : List TxnId) → IsLawful B → StandOneByOne B O }
{}

/// What groups leave as it was that run behind others; and the inputs of a group, where it begins, are what those that it needs gave in
/// the end.
pub fn runs_stay()
    ensures stays { (B : Behaviour) (start : Store) (Q T : List TxnGroup) → NoneTwice is_txn_group (Q ++ T) → Stays B start Q T }
    ensures found { (B : Behaviour) (start : Store) (Q : List TxnGroup) (r : TxnGroup) → NoneTwice is_txn_group Q
        → (IsListed is_txn_group Q r → AllByRecursion (λ q. IsListedBefore is_txn_group Q q r) (needs B r))
        → inputs_at B (stage_before B start Q r) r ≡ inputs_at B (stage_behind B start Q) r }
{}
