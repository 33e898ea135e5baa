//! Known lists that a startok tells.
ghost use Rattle.std.specs.Prelude.{◌≡◌, IfOk};
ghost use Rattle.std.specs.List.Sorted.{IsStrictlySortedBy};
ghost use Rattle.roc_base.specs.TxnId.{txn_cmp};
ghost use Rattle.roc_depgraph.specs.Deps.{entries_of};
ghost use Rattle.roc_step.specs.Piggyback.{facts_of, AreFactsFor};

use roc_base::{Edge, Edges, NoMemory, TxnId};
use roc_depgraph::KnownList;
use roc_msg::{Facts, MOST_FACT_EDGES, MOST_FACTS};
use roc_server_table::ListTable;
use std::alloc::Global;

/// The known lists of what entries lead to over what is followed, by id rising, as many as travel along with a message. They are told as
/// they were learnt.
pub fn facts_for(alloc: Global, table: &ListTable, edges: &[Edge]) -> Result<Facts, NoMemory>
    ensures { IfOk result (AreFactsFor table.now.known table.now.links edges.now) }
{
    let least = table.led_to(edges)?;
    facts_of(alloc, table, &least)
}

// The known lists of these, which rise strictly, as many as travel along.
fn facts_of(alloc: Global, table: &ListTable, ids: &[TxnId]) -> Result<Facts, NoMemory>
    requires { IsStrictlySortedBy txn_cmp ids.now }
    ensures { IfOk result (λ facts. facts ≡ facts_of table.now.known ids.now) }
{
    let mut facts = Facts::new(alloc);
    let mut room = MOST_FACTS;
    let mut left = MOST_FACT_EDGES;
    for id in ids {
        if room == 0 {
            return Ok(facts);
        }
        let edges = entries_of(alloc, table, *id)?;
        if edges.len() > left {
            return Ok(facts);
        }
        room -= 1;
        left -= edges.len();
        facts.push(KnownList { of: *id, edges })?;
    }
    Ok(facts)
}

// The entries of a list; none where it is unknown.
fn entries_of(alloc: Global, table: &ListTable, id: TxnId) -> Result<Edges, NoMemory>
    ensures { IfOk result (λ edges. edges ≡ entries_of table.now.known id) }
{
    match table.list(id) {
        Some(edges) => Ok(edges.clone()?),
        None => Ok(Edges::new(alloc)),
    }
}
