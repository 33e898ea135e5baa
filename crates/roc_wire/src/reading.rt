//! Reading a datagram.
ghost use Rattle.std.specs.Prelude.{◌≡◌, Ok, take, IfOk};
ghost use Rattle.roc_wire.specs.Reading.{IsRead, bytes_read, start_read, start_ok_read, commit_read, commit_ok_read, fetch_read, known_read, ended_read, settled_read};
ghost use Rattle.roc_wire.specs.Reading.{read_read, read_ok_read, drained_read, switched_read, body_read, magic_read, version_read, kind_read};
ghost use Rattle.roc_wire.specs.Reading.{node_read, whole_read, datagram, pair};
ghost use Rattle.roc_wire.specs.Fits.{IsSpellable};
ghost use Rattle.roc_wire.specs.Spelling.{spelling};
ghost use Rattle.roc_wire.specs.declared.header.Header.{Header as HeaderValue};
ghost use Rattle.roc_msg.specs.declared.msg.Msg.{Msg as MsgValue};

use crate::fields::{id_of, shard_of, u8_of, u8_within, u16_of, u16_within, u32_above, u32_of};
use crate::lists::{edges_of, facts_of, nums_of, versions_of};
use crate::{Header, WireFault};
use roc_base::{Node, Shard};
use roc_msg::Msg;
use std::alloc::Global;

#[tactic(auto, unfolding(crate::specs::Reading::start_read))]
fn start_of(alloc: Global, bytes: &[u8]) -> Result<(Msg, &[u8]), WireFault>
    ensures { IsRead (λ x. (x.0, x.1.now)) result (start_read bytes.now) }
{
    let (id, rest) = id_of(bytes)?;
    let (proc, rest) = u16_of(rest)?;
    let (group, rest) = u16_of(rest)?;
    let (args, rest) = nums_of(alloc, 8, rest)?;
    let (inputs, rest) = nums_of(alloc, 1024, rest)?;
    let msg = Msg::Start {
        id,
        proc,
        group,
        args,
        inputs,
    };
    Ok((msg, rest))
}

#[tactic(auto, unfolding(crate::specs::Reading::start_ok_read))]
fn start_ok_of(alloc: Global, bytes: &[u8]) -> Result<(Msg, &[u8]), WireFault>
    ensures { IsRead (λ x. (x.0, x.1.now)) result (start_ok_read bytes.now) }
{
    let (id, rest) = id_of(bytes)?;
    let (group, rest) = u16_of(rest)?;
    let (shard, rest) = shard_of(rest)?;
    let (bound, rest) = nums_of(alloc, 1024, rest)?;
    let (outs, rest) = nums_of(alloc, 1024, rest)?;
    let (edges, rest) = edges_of(alloc, 4096, rest)?;
    let (facts, rest) = facts_of(alloc, rest)?;
    let msg = Msg::StartOk {
        id,
        group,
        shard,
        bound,
        outs,
        edges,
        facts,
    };
    Ok((msg, rest))
}

#[tactic(auto, unfolding(crate::specs::Reading::commit_read))]
fn commit_of(alloc: Global, bytes: &[u8]) -> Result<(Msg, &[u8]), WireFault>
    ensures { IsRead (λ x. (x.0, x.1.now)) result (commit_read bytes.now) }
{
    let (id, rest) = id_of(bytes)?;
    let (edges, rest) = edges_of(alloc, 4096, rest)?;
    let (facts, rest) = facts_of(alloc, rest)?;
    Ok((Msg::Commit { id, edges, facts }, rest))
}

#[tactic(auto, unfolding(crate::specs::Reading::commit_ok_read))]
fn commit_ok_of(alloc: Global, bytes: &[u8]) -> Result<(Msg, &[u8]), WireFault>
    ensures { IsRead (λ x. (x.0, x.1.now)) result (commit_ok_read bytes.now) }
{
    let (id, rest) = id_of(bytes)?;
    let (shard, rest) = shard_of(rest)?;
    let (outs, rest) = nums_of(alloc, 1024, rest)?;
    Ok((Msg::CommitOk { id, shard, outs }, rest))
}

#[tactic(auto, unfolding(crate::specs::Reading::fetch_read))]
fn fetch_of(bytes: &[u8]) -> Result<(Msg, &[u8]), WireFault>
    ensures { IsRead (λ x. (x.0, x.1.now)) result (fetch_read bytes.now) }
{
    let (id, rest) = id_of(bytes)?;
    let (asker, rest) = shard_of(rest)?;
    Ok((Msg::Fetch { id, asker }, rest))
}

#[tactic(auto, unfolding(crate::specs::Reading::known_read))]
fn known_of(alloc: Global, bytes: &[u8]) -> Result<(Msg, &[u8]), WireFault>
    ensures { IsRead (λ x. (x.0, x.1.now)) result (known_read bytes.now) }
{
    let (id, rest) = id_of(bytes)?;
    let (edges, rest) = edges_of(alloc, 4096, rest)?;
    Ok((Msg::Known { id, edges }, rest))
}

#[tactic(auto, unfolding(crate::specs::Reading::ended_read))]
fn ended_of(bytes: &[u8]) -> Result<(Msg, &[u8]), WireFault>
    ensures { IsRead (λ x. (x.0, x.1.now)) result (ended_read bytes.now) }
{
    let (coord, rest) = u16_within(bytes, 0, 15)?;
    let (below, rest) = u32_of(rest)?;
    Ok((Msg::Ended { coord, below }, rest))
}

#[tactic(auto, unfolding(crate::specs::Reading::settled_read))]
fn settled_of(bytes: &[u8]) -> Result<(Msg, &[u8]), WireFault>
    ensures { IsRead (λ x. (x.0, x.1.now)) result (settled_read bytes.now) }
{
    let (id, rest) = id_of(bytes)?;
    let (below, rest) = u32_above(rest, id.seq)?;
    Ok((Msg::Settled { id, below }, rest))
}

#[tactic(auto, unfolding(crate::specs::Reading::read_read))]
fn read_of(alloc: Global, bytes: &[u8]) -> Result<(Msg, &[u8]), WireFault>
    ensures { IsRead (λ x. (x.0, x.1.now)) result (read_read bytes.now) }
{
    let (id, rest) = id_of(bytes)?;
    let (round, rest) = u32_of(rest)?;
    let (proc, rest) = u16_of(rest)?;
    let (group, rest) = u16_of(rest)?;
    let (args, rest) = nums_of(alloc, 8, rest)?;
    let msg = Msg::Read {
        id,
        round,
        proc,
        group,
        args,
    };
    Ok((msg, rest))
}

#[tactic(auto, unfolding(crate::specs::Reading::read_ok_read))]
fn read_ok_of(alloc: Global, bytes: &[u8]) -> Result<(Msg, &[u8]), WireFault>
    ensures { IsRead (λ x. (x.0, x.1.now)) result (read_ok_read bytes.now) }
{
    let (id, rest) = id_of(bytes)?;
    let (round, rest) = u32_of(rest)?;
    let (group, rest) = u16_of(rest)?;
    let (shard, rest) = shard_of(rest)?;
    let (versions, rest) = versions_of(alloc, rest)?;
    let (outs, rest) = nums_of(alloc, 1024, rest)?;
    let msg = Msg::ReadOk {
        id,
        round,
        group,
        shard,
        versions,
        outs,
    };
    Ok((msg, rest))
}

#[tactic(auto, unfolding(crate::specs::Reading::drained_read))]
fn drained_of(bytes: &[u8]) -> Result<(Msg, &[u8]), WireFault>
    ensures { IsRead (λ x. (x.0, x.1.now)) result (drained_read bytes.now) }
{
    let (upto, rest) = id_of(bytes)?;
    Ok((Msg::Drained { upto }, rest))
}

#[tactic(auto, unfolding(crate::specs::Reading::switched_read))]
fn switched_of(bytes: &[u8]) -> Result<(Msg, &[u8]), WireFault>
    ensures { IsRead (λ x. (x.0, x.1.now)) result (switched_read bytes.now) }
{
    let (upto, rest) = id_of(bytes)?;
    let (shard, rest) = shard_of(rest)?;
    Ok((Msg::Switched { upto, shard }, rest))
}

#[tactic(auto, unfolding(crate::specs::Reading::body_read))]
fn body_of(alloc: Global, kind: u8, bytes: &[u8]) -> Result<(Msg, &[u8]), WireFault>
    ensures { IsRead (λ x. (x.0, x.1.now)) result (body_read kind bytes.now) }
{
    if kind == 1 {
        return start_of(alloc, bytes);
    }
    if kind == 2 {
        return start_ok_of(alloc, bytes);
    }
    if kind == 3 {
        return commit_of(alloc, bytes);
    }
    if kind == 4 {
        return commit_ok_of(alloc, bytes);
    }
    if kind == 5 {
        return fetch_of(bytes);
    }
    if kind == 6 {
        return known_of(alloc, bytes);
    }
    if kind == 7 {
        return Ok((Msg::Stop, bytes));
    }
    if kind == 8 {
        return ended_of(bytes);
    }
    if kind == 9 {
        return settled_of(bytes);
    }
    if kind == 10 {
        return read_of(alloc, bytes);
    }
    if kind == 11 {
        return read_ok_of(alloc, bytes);
    }
    if kind == 12 {
        return drained_of(bytes);
    }
    switched_of(bytes)
}

#[tactic(auto, unfolding(crate::specs::Reading::magic_read))]
fn magic_of(bytes: &[u8]) -> Result<&[u8], WireFault>
    ensures { IsRead (λ x. (take 4 bytes.now, x.now)) result (magic_read bytes.now) }
{
    if bytes.len() < 4 {
        return Err(WireFault::Short);
    }
    let (front, rest) = bytes.split_at(4);
    if front == b"RCO1".as_slice() {
        Ok(rest)
    } else {
        Err(WireFault::Magic)
    }
}

#[tactic(auto, unfolding(crate::specs::Reading::version_read))]
fn version_of(bytes: &[u8]) -> Result<(u8, &[u8]), WireFault>
    ensures { IsRead (λ x. (x.0, x.1.now)) result (version_read bytes.now) }
{
    let (version, rest) = u8_of(bytes)?;
    if version == 2 {
        Ok((version, rest))
    } else {
        Err(WireFault::Version)
    }
}

#[tactic(auto, unfolding(crate::specs::Reading::kind_read))]
fn kind_of(bytes: &[u8]) -> Result<(u8, &[u8]), WireFault>
    ensures { IsRead (λ x. (x.0, x.1.now)) result (kind_read bytes.now) }
{
    let (kind, rest) = u8_of(bytes)?;
    if 1 <= kind && kind <= 13 {
        Ok((kind, rest))
    } else {
        Err(WireFault::Kind)
    }
}

fn tag_of(bytes: &[u8]) -> Result<([u8; 8], &[u8]), WireFault>
    ensures { IsRead (λ x. (x.0, x.1.now)) result (bytes_read 8 bytes.now) }
{
    if bytes.len() < 8 {
        return Err(WireFault::Short);
    }
    let (front, rest) = bytes.split_at(8);
    let mut tag = [0; 8];
    tag.copy_from_slice(front);
    Ok((tag, rest))
}

#[tactic(auto, unfolding(crate::specs::Reading::node_read))]
fn node_of(bytes: &[u8]) -> Result<(Node, &[u8]), WireFault>
    ensures { IsRead (λ x. (x.0, x.1.now)) result (node_read bytes.now) }
{
    let (role, rest) = u8_within(bytes, 0, 1)?;
    if role == 0 {
        let (number, rest) = u16_within(rest, 0, 63)?;
        Ok((Node::Server(Shard(number as u8)), rest))
    } else {
        let (number, rest) = u16_within(rest, 0, 15)?;
        Ok((Node::Coord(number), rest))
    }
}

#[tactic(auto, unfolding(crate::specs::Reading::whole_read))]
fn whole_of(alloc: Global, bytes: &[u8]) -> Result<(Header, Msg, &[u8]), WireFault>
    ensures { IsRead (λ x. ((x.0, x.1), x.2.now)) result (whole_read bytes.now) }
{
    let rest = magic_of(bytes)?;
    let (_version, rest) = version_of(rest)?;
    let (kind, rest) = kind_of(rest)?;
    let (tag, rest) = tag_of(rest)?;
    let (from, rest) = node_of(rest)?;
    let (msg, rest) = body_of(alloc, kind, rest)?;
    Ok((Header { tag, from }, msg, rest))
}

#[tactic(auto, unfolding(crate::specs::Reading::datagram))]
fn datagram_of(alloc: Global, bytes: &[u8]) -> Result<(Header, Msg), WireFault>
    ensures { IsRead (λ x. (x.0, x.1)) result (datagram bytes.now) }
{
    let (header, msg, rest) = whole_of(alloc, bytes)?;
    if rest.is_empty() {
        Ok((header, msg))
    } else {
        Err(WireFault::Rest)
    }
}

/// The header and the message that the bytes spell, all of the bytes; else the first fault from
/// left to right, or want of memory.
pub fn decode(alloc: Global, bytes: &[u8]) -> Result<(Header, Msg), WireFault>
    // What is read is spelled so.
    ensures found { IfOk result (λ x. IsSpellable x.0 x.1 × (bytes.now ≡ spelling x.0 x.1)) }
    // What is spelled so is read, unless memory runs out.
    ensures only { (header : HeaderValue) (msg : MsgValue) → IsSpellable header msg → bytes.now ≡ spelling header msg → IsRead (λ x. (x.0, x.1)) result (Ok (pair header msg)) }
    // Which fault it is.
    ensures exact { IsRead (λ x. (x.0, x.1)) result (datagram bytes.now) }
{
    datagram_of(alloc, bytes)
}
