//! The commit round: the union of what the groups were told, and what is sent to commit.
ghost use Rattle.std.specs.Prelude.{◌≡◌, ◌==◌, not, filter, map, IfOk, OnOk};
ghost use Rattle.std.specs.List.{flat_map, list_any};
ghost use Rattle.roc_base.specs.Edges.{united};
ghost use Rattle.roc_msg.specs.Outbox.{HasSent};
ghost use Rattle.roc_coord.specs.State.{has_commitok};
ghost use Rattle.roc_coord.specs.Starts.{shards_below, shards_of, commit_to, commits_of};
ghost use Rattle.roc_coord.specs.Commits.{all_committed};
ghost use Rattle.roc_coord.specs.Tick.{commits_again};
ghost use Rattle.roc_coord.specs.Inner.CommitWith.{commit_with};

use crate::facts::all_facts;
use crate::{SentStart, TakenCommit, TakenStart, Transaction};
use roc_base::{Edges, NoMemory, Node, Shard, TxnId};
use roc_msg::{Facts, Msg, Outbox};
use roc_sequence::Sequence;
use std::alloc::{AllocError, Global};

/// Shards have lower numbers than this.
const SHARDS: u8 = 64;

// The union of what the groups were told.
fn all_edges(alloc: Global, startoks: &[TakenStart]) -> Result<Edges, NoMemory>
    ensures { IfOk result (λ edges. edges ≡ united (flat_map (λ ok. ok.edges) startoks.now)) }
{
    let mut told = Vec::new(alloc);
    for ok in startoks {
        told.extend_from_slice(ok.edges.as_slice())?;
    }
    let mut edges = Edges::new(alloc);
    edges.unite(&told)?;
    Ok(edges)
}

// Whether a shard was asked to start a group.
fn has_shard(starts: &[SentStart], shard: Shard) -> bool
    ensures { result ≡ list_any (λ start. start.shard.0 == shard.0) starts.now }
{
    starts.iter().any(|start| start.shard == shard)
}

// The shards below a number that were asked to start a group, rising.
fn shards_below(
    alloc: Global,
    starts: &[SentStart],
    count: u8,
) -> Result<Sequence<Shard>, AllocError>
    ensures { IfOk result (λ shards. shards ≡ shards_below count starts.now) }
{
    let mut shards = Sequence::new(alloc);
    for number in 0..count {
        let shard = Shard(number);
        if has_shard(starts, shard) {
            shards.push(shard)?;
        }
    }
    Ok(shards)
}

// Sends a commit to each shard.
fn send_each(
    id: TxnId,
    edges: &Edges,
    facts: &Facts,
    shards: &[Shard],
    outbox: &mut Outbox,
) -> Result<(), NoMemory>
    ensures { OnOk result (HasSent outbox.old outbox.new (map (commit_with id edges.now facts.now) shards.now)) }
{
    for shard in shards {
        let commit = Msg::Commit {
            id,
            edges: edges.clone()?,
            facts: facts.clone()?,
        };
        outbox.send(Node::Server(*shard), commit)?;
    }
    Ok(())
}

// Sends a commit of a transaction to each of these shards.
fn send_to(
    alloc: Global,
    x: &Transaction,
    shards: &[Shard],
    outbox: &mut Outbox,
) -> Result<(), NoMemory>
    ensures { OnOk result (HasSent outbox.old outbox.new (map (commit_to x.now) shards.now)) }
{
    let edges = all_edges(alloc, x.startoks.as_slice())?;
    let facts = all_facts(alloc, x)?;
    send_each(x.id, &edges, &facts, shards, outbox)
}

/// Sends the commits to the transaction's shards, rising: these shards. `NoMemory` may leave some sent.
pub(crate) fn send_commits(
    alloc: Global,
    x: &Transaction,
    outbox: &mut Outbox,
) -> Result<Sequence<Shard>, NoMemory>
    ensures asked { IfOk result (λ shards. shards ≡ shards_of x.now) }
    ensures sent { OnOk result (HasSent outbox.old outbox.new (commits_of x.now)) }
{
    let shards = shards_below(alloc, x.starts.as_slice(), SHARDS)?;
    send_to(alloc, x, shards.as_slice(), outbox)?;
    Ok(shards)
}

// The shards whose commitok is not here.
fn unanswered(alloc: Global, x: &Transaction) -> Result<Sequence<Shard>, AllocError>
    ensures { IfOk result (λ shards. shards ≡ filter (λ shard. not (has_commitok shard x.now.commitoks)) x.now.asked) }
{
    let mut shards = Sequence::new(alloc);
    for shard in x.asked.as_slice() {
        if !has_commitok(x.commitoks.as_slice(), *shard) {
            shards.push(*shard)?;
        }
    }
    Ok(shards)
}

/// Sends the commits again that have no commitok, by shard. `NoMemory` may leave some sent.
pub(crate) fn send_commits_again(
    alloc: Global,
    x: &Transaction,
    outbox: &mut Outbox,
) -> Result<(), NoMemory>
    ensures { OnOk result (HasSent outbox.old outbox.new (commits_again x.now)) }
{
    let shards = unanswered(alloc, x)?;
    send_to(alloc, x, shards.as_slice(), outbox)
}

/// Whether a shard's commitok was taken.
pub(crate) fn has_commitok(commitoks: &[TakenCommit], shard: Shard) -> bool
    ensures { result ≡ has_commitok shard commitoks.now }
{
    commitoks.iter().any(|ok| ok.shard == shard)
}

/// Whether each shard that was asked to commit has answered.
pub(crate) fn all_committed(x: &Transaction) -> bool
    ensures { result ≡ all_committed x.now }
{
    let commitoks = x.commitoks.as_slice();
    x.asked
        .as_slice()
        .iter()
        .all(|shard| has_commitok(commitoks, *shard))
}
