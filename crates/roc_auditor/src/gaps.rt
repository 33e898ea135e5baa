//! Servers without a log.
ghost use Rattle.std.specs.Prelude.{◌≡◌};
ghost use Rattle.roc_auditor.specs.Verdict.{has_server, is_server_of};
ghost use Rattle.roc_auditor.specs.Inner.Gaps.{IsGapOrNone};

use roc_base::{Node, Shard};

fn is_of(node: Node, shard: u8) -> bool
    ensures { result ≡ is_server_of shard node }
{
    match node {
        Node::Server(other) => other.0 == shard,
        Node::Coord(_) => false,
    }
}

fn has_server(nodes: &[Node], shard: u8) -> bool
    ensures { result ≡ has_server nodes.now shard }
{
    nodes.iter().any(|node| is_of(*node, shard))
}

/// The least of so many shards whose server is none of these nodes.
pub(crate) fn first_gap(nodes: &[Node], shards: u8) -> Option<Shard>
    ensures { IsGapOrNone nodes.now shards result }
{
    for shard in 0..shards {
        if !has_server(nodes, shard) {
            return Some(Shard(shard));
        }
    }
    None
}
