//! Laws of least orders and least cycles, each the contract of a function that does nothing.
ghost use Rattle.std.specs.Prelude.{◌≡◌, Bool, List};
ghost use Rattle.roc_base.specs.declared.id.TxnId.{TxnId};
ghost use Rattle.roc_precedence.specs.Cycles.{IsLeastCycle};
ghost use Rattle.roc_precedence.specs.Orders.{IsLeastOrder, HaveSameChains, Told};

/// The least order depends on chains alone: relations whose chains among the members lead alike have the same one, and a relation
/// has at most one. Relations are told by tests here, since a clause does not range over others.
pub fn orders_depend_on_chains()
    ensures same { (test other : TxnId → TxnId → Bool) (M xs : List TxnId) → HaveSameChains (Told test) (Told other) M → IsLeastOrder (Told test) M xs → IsLeastOrder (Told other) M xs }
    ensures one { (test : TxnId → TxnId → Bool) (M xs ys : List TxnId) → IsLeastOrder (Told test) M xs → IsLeastOrder (Told test) M ys → xs ≡ ys }
{}

/// A relation has at most one least cycle, so that its definition says which cycle it is.
pub fn least_cycle_is_one()
    ensures { (test : TxnId → TxnId → Bool) (M c d : List TxnId) → IsLeastCycle (Told test) M c → IsLeastCycle (Told test) M d → c ≡ d }
{}
