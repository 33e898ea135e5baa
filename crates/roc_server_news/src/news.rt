//! Lists that a message teaches.
ghost use Rattle.std.specs.Prelude.{◌≡◌, ◌++◌, ◌∷◌, [], filter, IfOk, OnOk};
ghost use Rattle.roc_base.specs.TxnId.{txn_lt};
ghost use Rattle.roc_step.specs.Carried.{list_with, carried, unknown_of};

use roc_base::{Edges, NoMemory, TxnId};
use roc_depgraph::KnownList;
use roc_server_table::ListTable;
use std::alloc::Global;

/// The lists that a commit carries of transactions of which none is known, by id.
pub fn news_of_commit(
    alloc: Global,
    table: &ListTable,
    id: TxnId,
    edges: &Edges,
    facts: &[KnownList],
) -> Result<Vec<KnownList>, NoMemory>
    ensures { IfOk result (λ news. news.items ≡ unknown_of table.now.known (carried id edges.now facts.now)) }
{
    let mut news = Vec::new(alloc);
    push_before(table, id, facts, &mut news)?;
    push_unknown(table, id, edges, &mut news)?;
    push_behind(table, id, facts, &mut news)?;
    Ok(news)
}

/// The list that answers a fetch, where none is known of its transaction.
pub fn news_of_known(
    alloc: Global,
    table: &ListTable,
    id: TxnId,
    edges: &Edges,
) -> Result<Vec<KnownList>, NoMemory>
    ensures { IfOk result (λ news. news.items ≡ unknown_of table.now.known (list_with id edges.now ∷ [])) }
{
    let mut news = Vec::new(alloc);
    push_unknown(table, id, edges, &mut news)?;
    Ok(news)
}

// A list, where none is known of its transaction.
fn push_unknown(
    table: &ListTable,
    of: TxnId,
    edges: &Edges,
    news: &mut Vec<KnownList>,
) -> Result<(), NoMemory>
    ensures { OnOk result (news.new.items ≡ news.old.items ++ unknown_of table.now.known (list_with of edges.now ∷ [])) }
{
    if table.list(of).is_some() {
        return Ok(());
    }
    let edges = edges.clone()?;
    news.push(KnownList { of, edges })?;
    Ok(())
}

// The unknown ones before an id.
fn push_before(
    table: &ListTable,
    id: TxnId,
    facts: &[KnownList],
    news: &mut Vec<KnownList>,
) -> Result<(), NoMemory>
    ensures { OnOk result (news.new.items ≡ news.old.items ++ unknown_of table.now.known (filter (λ f. txn_lt f.of id) facts.now)) }
{
    for fact in facts {
        if fact.of < id {
            push_unknown(table, fact.of, &fact.edges, news)?;
        }
    }
    Ok(())
}

// The unknown ones behind an id.
fn push_behind(
    table: &ListTable,
    id: TxnId,
    facts: &[KnownList],
    news: &mut Vec<KnownList>,
) -> Result<(), NoMemory>
    ensures { OnOk result (news.new.items ≡ news.old.items ++ unknown_of table.now.known (filter (λ f. txn_lt id f.of) facts.now)) }
{
    for fact in facts {
        if id < fact.of {
            push_unknown(table, fact.of, &fact.edges, news)?;
        }
    }
    Ok(())
}
