//! What unions mean, over all lists of entries.
ghost use Rattle.std.specs.Prelude.{◌≡◌, ◌≢◌, List, None, IfSome};
ghost use Rattle.roc_base.specs.declared.id.TxnId.{TxnId};
ghost use Rattle.roc_sequence.specs.Lists.{Has};
ghost use Rattle.roc_base.specs.Edge.{Dependency};
ghost use Rattle.roc_base.specs.Edges.{IsAllOf, comes_before, entry_at, all_of, united};
ghost use Rattle.roc_sequence.specs.Rising.{IsRising};

/// What a list says of an id is what its entries of that id say together: each tag that one of
/// them has, and the least of their shards; and it says nothing only where none is of that id.
pub fn lists_say_all()
    ensures said { (id : TxnId) (es : List Dependency) → IfSome (all_of id es) (IsAllOf id es) }
    ensures silent { (id : TxnId) (es : List Dependency) → all_of id es ≡ None → (d : Dependency) → Has d es → d.from ≢ id }
{}

/// The union is the only rising list that has at each id what the entries say.
pub fn unions_are_one()
    ensures rising { (es : List Dependency) → IsRising comes_before (united es) }
    ensures found { (id : TxnId) (es : List Dependency) → entry_at id (united es) ≡ all_of id es }
    ensures only { (xs es : List Dependency) → IsRising comes_before xs → ((id : TxnId) → entry_at id xs ≡ all_of id es) → xs ≡ united es }
{}
