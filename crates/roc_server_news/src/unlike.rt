//! Lists of one transaction that are unlike.
ghost use Rattle.std.specs.Prelude.{◌≡◌, ◌&&◌, ◌||◌, ◌∷◌, not};
ghost use Rattle.std.specs.List.{list_any};
ghost use Rattle.roc_base.specs.TxnId.{is_txn};
ghost use Rattle.roc_base.specs.Equality.{is_edges};
ghost use Rattle.roc_step.specs.Carried.{list_with, is_unlike};

use roc_base::{Edges, TxnId};
use roc_depgraph::KnownList;
use roc_server_table::ListTable;

/// Whether another list is known of one that a commit carries, its own or a fact, or the commit's own list stands otherwise among its
/// facts. Takes no memory.
pub fn commit_differs(table: &ListTable, id: TxnId, edges: &Edges, facts: &[KnownList]) -> bool
    ensures { result ≡ (list_any (is_unlike table.now.known) (list_with id edges.now ∷ facts.now) || list_any (λ f. is_txn f.of id && not (is_edges f.edges edges.now)) facts.now) }
{
    is_unlike(table, id, edges)
        || is_any_unlike(table, facts)
        || is_carried_otherwise(id, edges, facts)
}

// Whether another list is known of one of these.
fn is_any_unlike(table: &ListTable, facts: &[KnownList]) -> bool
    ensures { result ≡ list_any (is_unlike table.now.known) facts.now }
{
    facts
        .iter()
        .any(|fact| is_unlike(table, fact.of, &fact.edges))
}

// Whether another list of the transaction is among these.
fn is_carried_otherwise(id: TxnId, edges: &Edges, facts: &[KnownList]) -> bool
    ensures { result ≡ list_any (λ f. is_txn f.of id && not (is_edges f.edges edges.now)) facts.now }
{
    facts
        .iter()
        .any(|fact| fact.of == id && fact.edges != *edges)
}

/// Whether another list of the transaction is known. Takes no memory.
pub fn is_unlike(table: &ListTable, of: TxnId, edges: &Edges) -> bool
    ensures { result ≡ is_unlike table.now.known (list_with of edges.now) }
{
    match table.list(of) {
        Some(kept) => *kept != *edges,
        None => false,
    }
}
