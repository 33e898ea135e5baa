//! Each number of a line has at most 64 bits, since its type has no more: nothing is done here, but that contracts say so.
ghost use Rattle.std.specs.Prelude.{FitsSigned, IfSome, map};
ghost use Rattle.std.specs.List.{AllByRecursion};
ghost use Rattle.std.specs.Int.{w64};
ghost use Rattle.roc_report.specs.ReportLine.{IsSmall, AreSmallIntegers, IsSmallId, IsSmallNode, IsSmallDuring, IsSmallEdge, IsSmallMessage, IsSmallCell, HasSmallNumbers};
ghost use Rattle.roc_report.specs.Shown.{shown_message, shown};

use crate::ReportLine;
use crate::text::{edges_of, facts_of, named_by};
use roc_base::{Edge, Node, Shard, TxnId};
use roc_depgraph::KnownList;
use roc_msg::Envelope;
use roc_rows::Cell;

/// The numbers of a line have at most 64 bits.
pub(crate) fn has_small_numbers(line: &ReportLine)
    ensures { HasSmallNumbers (shown line.now) }
{
    match line {
        ReportLine::Submit { id, args, .. } => {
            is_small_id(*id);
            are_small_integers(args.as_slice());
        }
        ReportLine::Busy(coord) => is_small(u64::from(*coord)),
        ReportLine::Spent(coord) => is_small(u64::from(*coord)),
        ReportLine::Deliver(number) => is_small(*number),
        ReportLine::Nothing | ReportLine::Skipped | ReportLine::Gone | ReportLine::Ignored(_) => {}
        ReportLine::Tick(node) => is_small_node(*node),
        ReportLine::Stopped(shard, during) => {
            is_small_shard(*shard);
            is_small_during(*during);
        }
        ReportLine::Drain(coord) => is_small(u64::from(*coord)),
        ReportLine::Draining(coord) => is_small(u64::from(*coord)),
        ReportLine::NoProc(coord) => is_small(u64::from(*coord)),
        ReportLine::Send { number, sent } => {
            is_small(*number);
            is_small_message(sent);
        }
        ReportLine::Answer { id, reply } => {
            is_small_id(*id);
            are_small_integers(reply.as_slice());
        }
        ReportLine::Order(ids) => are_small_ids(ids),
        ReportLine::Row { cell, value } => {
            is_small_cell(**cell);
            is_small_integer(*value);
        }
        ReportLine::Pending(id) => is_small_id(*id),
        ReportLine::End {
            answered,
            pending,
            messages,
        } => {
            is_small(*answered);
            is_small(*pending);
            is_small(*messages);
        }
    }
}

fn is_small(number: u64)
    ensures { IsSmall number }
{
    let _read = number;
}

fn is_small_integer(integer: i64)
    ensures { FitsSigned w64 integer }
{
    let _read = integer;
}

fn are_small_integers(integers: &[i64])
    ensures { AreSmallIntegers integers.now }
{
    for integer in integers {
        is_small_integer(*integer);
    }
}

fn is_small_id(id: TxnId)
    ensures { IsSmallId id }
{
    is_small(u64::from(id.coord));
    is_small(u64::from(id.seq));
}

fn are_small_ids(ids: &[TxnId])
    ensures { AllByRecursion IsSmallId ids.now }
{
    for id in ids {
        is_small_id(*id);
    }
}

fn is_small_shard(shard: Shard)
    ensures { IsSmall shard.0 }
{
    is_small(u64::from(shard.0));
}

fn is_small_node(node: Node)
    ensures { IsSmallNode node }
{
    match node {
        Node::Server(shard) => is_small_shard(shard),
        Node::Coord(number) => is_small(u64::from(number)),
    }
}

fn is_small_during(during: Option<(u64, Option<u32>)>)
    ensures { IsSmallDuring during }
{
    match during {
        None => {}
        Some((number, None)) => is_small(number),
        Some((number, Some(many))) => {
            is_small(number);
            is_small(u64::from(many));
        }
    }
}

fn is_small_edge(edge: Edge)
    ensures { IsSmallEdge edge }
{
    is_small_id(edge.from());
    is_small_shard(edge.at());
}

fn are_small_edges(edges: &[Edge])
    ensures { AllByRecursion IsSmallEdge edges.now }
{
    for edge in edges {
        is_small_edge(*edge);
    }
}

fn are_small_facts(facts: &[KnownList])
    ensures { AllByRecursion IsSmallId (map (λ fact. fact.of) facts.now) }
{
    for fact in facts {
        is_small_id(fact.of);
    }
}

fn is_small_name(id: Option<TxnId>)
    ensures { IfSome id IsSmallId }
{
    if let Some(id) = id {
        is_small_id(id);
    }
}

fn is_small_message(sent: &Envelope)
    ensures { IsSmallMessage (shown_message sent.now) }
{
    is_small_name(named_by(&sent.msg));
    is_small_node(sent.from);
    is_small_node(sent.to);
    are_small_edges(edges_of(&sent.msg));
    are_small_facts(facts_of(&sent.msg));
}

fn is_small_cell(cell: Cell)
    ensures { IsSmallCell cell }
{
    is_small_integer(cell.place);
    are_small_integers(cell.id.as_slice());
}
