//! Laws of the component order, each the contract of a function that does nothing.
ghost use Rattle.std.specs.Prelude.{◌≡◌, List};
ghost use Rattle.roc_base.specs.declared.id.TxnId.{TxnId};
ghost use Rattle.roc_component.specs.Components.{AreTaken, AreTakenRising, IsComponentOrderOf, HaveSameEdges, HaveSameMembers};
ghost use Rattle.roc_depgraph.specs.declared.known.KnownList.{KnownList};

/// The component order of a set depends on the edges among its members alone, whatever else is
/// known, and on the members alone, in whatever order they are listed.
pub fn order_is_one()
    ensures edges { (known other : List KnownList) (M xs ys : List TxnId) → HaveSameEdges M known other → IsComponentOrderOf known M xs → IsComponentOrderOf other M ys → xs ≡ ys }
    ensures members { (known : List KnownList) (M N xs ys : List TxnId) → HaveSameMembers M N → IsComponentOrderOf known M xs → IsComponentOrderOf known N ys → xs ≡ ys }
{}

/// Every set of ids has a component order, by any known lists.
pub fn order_exists()
    ensures { (known : List KnownList) (M : List TxnId) → (xs : List TxnId) × IsComponentOrderOf known M xs }
{}

/// What is taken one after another is known by component: by any known lists a set has one list of components as they are
/// taken, in their orders inside, and one of the same rising.
pub fn components_are_one()
    ensures taken { (known : List KnownList) (M : List TxnId) (xs ys : List (List TxnId)) → AreTaken known M xs → AreTaken known M ys → xs ≡ ys }
    ensures rising { (known : List KnownList) (M : List TxnId) (xs ys : List (List TxnId)) → AreTakenRising known M xs → AreTakenRising known M ys → xs ≡ ys }
{}
