//! New lists are learnt: as they are, and what is followed of them.
ghost use Rattle.std.specs.Prelude.{◌≡◌, IfOk, OnErr};
ghost use Rattle.roc_step.specs.Learning.{AreLearnable};
ghost use Rattle.roc_server_lists.specs.Inner.Finding.{Learns};

use crate::missing::done_of;
use crate::parts::ListParts;
use roc_base::{Edges, NoMemory, Shard, TxnId};
use roc_depgraph::KnownList;
use roc_server_groups::StartedGroups;
use roc_server_news::all_edges;
use std::alloc::Global;

// What new lists name, by id, and the transactions among it of which the entries are done, rising.
#[derive(Drop)]
pub(crate) struct Named {
    pub edges: Edges,
    pub done: Vec<TxnId>,
}

// Learns lists of transactions of which none is known.
pub(crate) fn learn(
    alloc: Global,
    shard: Shard,
    parts: &mut ListParts,
    started: &StartedGroups,
    news: &[KnownList],
) -> Result<Named, NoMemory>
    requires { AreLearnable parts.old.table.known news.now }
    ensures ok { IfOk result (Learns shard started.now.groups parts.old parts.new news.now) }
    ensures err { OnErr result (parts.new ≡ parts.old) }
{
    let edges = all_edges(alloc, news)?;
    let done = done_of(alloc, shard, parts, started, edges.as_slice())?;
    parts.table.learn(news, &done)?;
    Ok(Named { edges, done })
}
