//! Writing a datagram.
ghost use Rattle.std.specs.Prelude.{◌≡◌, ◌<◌, ◌^◌, ◌++◌, length, IfOk, OnOk};
ghost use Rattle.std.specs.List.{All};
ghost use Rattle.std.specs.Int.{w8, w16, w32, to_be_bytes};
ghost use Rattle.roc_wire.specs.Spelling.{id_bytes, shard_bytes, nums_bytes, versions_bytes, tags_of, edge_bytes, edges_bytes, fact_bytes, facts_bytes, body};
ghost use Rattle.roc_wire.specs.Spelling.{sender_role, sender_number, spelling};
ghost use Rattle.roc_wire.specs.Fits.{FitsFacts, FitsMsg, IsSpellable};

use crate::Header;
use crate::numbers::{put_i64, put_u8, put_u16, put_u32, put_u64};
use roc_base::{Edge, Edges, NoMemory, Node, Nums, Shard, TxnId};
use roc_depgraph::KnownList;
use roc_msg::{CellVersions, Facts, Msg};
use std::alloc::Global;

/// The one spelling of a header and a message that have one.
pub fn encode(alloc: Global, header: &Header, msg: &Msg) -> Result<Vec<u8>, NoMemory>
    requires { IsSpellable header.now msg.now }
    ensures { IfOk result (λ bytes. bytes.items ≡ spelling header.now msg.now) }
{
    let mut out = Vec::new(alloc);
    out.extend_from_slice(b"RCO1")?;
    put_u8(&mut out, 2)?;
    put_u8(&mut out, msg.kind())?;
    out.extend_from_slice(&header.tag)?;
    put_sender(&mut out, header.from)?;
    put_body(&mut out, msg)?;
    Ok(out)
}

fn put_sender(out: &mut Vec<u8>, from: Node) -> Result<(), NoMemory>
    ensures { OnOk result (out.new.items ≡ out.old.items ++ to_be_bytes w8 (sender_role from) ++ to_be_bytes w16 (sender_number from)) }
{
    match from {
        Node::Server(Shard(number)) => {
            put_u8(out, 0)?;
            put_u16(out, number as u16)?;
        }
        Node::Coord(number) => {
            put_u8(out, 1)?;
            put_u16(out, number)?;
        }
    }
    Ok(())
}

fn put_body(out: &mut Vec<u8>, msg: &Msg) -> Result<(), NoMemory>
    requires { FitsMsg msg.now }
    ensures { OnOk result (out.new.items ≡ out.old.items ++ body msg.now) }
{
    match msg {
        Msg::Start {
            id,
            proc,
            group,
            args,
            inputs,
        } => put_start(out, *id, *proc, *group, args, inputs)?,
        Msg::StartOk {
            id,
            group,
            shard,
            bound,
            outs,
            edges,
            facts,
        } => {
            put_id(out, *id)?;
            put_given(out, *group, *shard, bound, outs)?;
            put_lists(out, edges, facts)?;
        }
        Msg::Commit { id, edges, facts } => {
            put_id(out, *id)?;
            put_lists(out, edges, facts)?;
        }
        Msg::CommitOk { id, shard, outs } => put_commit_ok(out, *id, *shard, outs)?,
        Msg::Fetch { id, asker } => put_at(out, *id, *asker)?,
        Msg::Known { id, edges } => put_known(out, *id, edges)?,
        Msg::Stop => {}
        Msg::Ended { coord, below } => put_ended(out, *coord, *below)?,
        Msg::Settled { id, below } => put_settled(out, *id, *below)?,
        Msg::Read {
            id,
            round,
            proc,
            group,
            args,
        } => put_read(out, *id, *round, *proc, *group, args)?,
        Msg::ReadOk {
            id,
            round,
            group,
            shard,
            versions,
            outs,
        } => {
            put_of_round(out, *id, *round, *group)?;
            put_found(out, *shard, versions, outs)?;
        }
        Msg::Drained { upto } => put_id(out, *upto)?,
        Msg::Switched { upto, shard } => put_at(out, *upto, *shard)?,
    }
    Ok(())
}

fn put_start(
    out: &mut Vec<u8>,
    id: TxnId,
    proc: u16,
    group: u16,
    args: &Nums,
    inputs: &Nums,
) -> Result<(), NoMemory>
    requires args { length args.now < 2 ^ 16 }
    requires inputs { length inputs.now < 2 ^ 16 }
    ensures { OnOk result (out.new.items ≡ out.old.items ++ (id_bytes id ++ to_be_bytes w16 proc ++ to_be_bytes w16 group ++ nums_bytes args.now ++ nums_bytes inputs.now)) }
{
    put_id(out, id)?;
    put_asked(out, proc, group, args, inputs)?;
    Ok(())
}

fn put_commit_ok(out: &mut Vec<u8>, id: TxnId, shard: Shard, outs: &Nums) -> Result<(), NoMemory>
    requires { length outs.now < 2 ^ 16 }
    ensures { OnOk result (out.new.items ≡ out.old.items ++ (id_bytes id ++ shard_bytes shard ++ nums_bytes outs.now)) }
{
    put_id(out, id)?;
    put_shard(out, shard)?;
    put_nums(out, outs.as_slice())?;
    Ok(())
}

fn put_at(out: &mut Vec<u8>, id: TxnId, shard: Shard) -> Result<(), NoMemory>
    ensures { OnOk result (out.new.items ≡ out.old.items ++ (id_bytes id ++ shard_bytes shard)) }
{
    put_id(out, id)?;
    put_shard(out, shard)?;
    Ok(())
}

fn put_ended(out: &mut Vec<u8>, coord: u16, below: u32) -> Result<(), NoMemory>
    ensures { OnOk result (out.new.items ≡ out.old.items ++ (to_be_bytes w16 coord ++ to_be_bytes w32 below)) }
{
    put_u16(out, coord)?;
    put_u32(out, below)?;
    Ok(())
}

fn put_settled(out: &mut Vec<u8>, id: TxnId, below: u32) -> Result<(), NoMemory>
    ensures { OnOk result (out.new.items ≡ out.old.items ++ (id_bytes id ++ to_be_bytes w32 below)) }
{
    put_id(out, id)?;
    put_u32(out, below)?;
    Ok(())
}

fn put_read(
    out: &mut Vec<u8>,
    id: TxnId,
    round: u32,
    proc: u16,
    group: u16,
    args: &Nums,
) -> Result<(), NoMemory>
    requires { length args.now < 2 ^ 16 }
    ensures { OnOk result (out.new.items ≡ out.old.items ++ (id_bytes id ++ to_be_bytes w32 round ++ to_be_bytes w16 proc ++ to_be_bytes w16 group ++ nums_bytes args.now)) }
{
    put_of_round(out, id, round, proc)?;
    put_u16(out, group)?;
    put_nums(out, args.as_slice())?;
    Ok(())
}

// A transaction, one of its rounds, and the number of its procedure or of one of its groups.
fn put_of_round(out: &mut Vec<u8>, id: TxnId, round: u32, number: u16) -> Result<(), NoMemory>
    ensures { OnOk result (out.new.items ≡ out.old.items ++ (id_bytes id ++ to_be_bytes w32 round ++ to_be_bytes w16 number)) }
{
    put_id(out, id)?;
    put_u32(out, round)?;
    put_u16(out, number)?;
    Ok(())
}

// What a group has read.
fn put_found(
    out: &mut Vec<u8>,
    shard: Shard,
    versions: &CellVersions,
    outs: &Nums,
) -> Result<(), NoMemory>
    requires versions { length versions.now < 2 ^ 16 }
    requires outs { length outs.now < 2 ^ 16 }
    ensures { OnOk result (out.new.items ≡ out.old.items ++ (shard_bytes shard ++ versions_bytes versions.now ++ nums_bytes outs.now)) }
{
    put_shard(out, shard)?;
    put_versions(out, versions.as_slice())?;
    put_nums(out, outs.as_slice())?;
    Ok(())
}

fn put_known(out: &mut Vec<u8>, id: TxnId, edges: &Edges) -> Result<(), NoMemory>
    requires { length edges.now < 2 ^ 16 }
    ensures { OnOk result (out.new.items ≡ out.old.items ++ (id_bytes id ++ edges_bytes edges.now)) }
{
    put_id(out, id)?;
    put_edges(out, edges.as_slice())?;
    Ok(())
}

// What a group is asked to start with.
fn put_asked(
    out: &mut Vec<u8>,
    proc: u16,
    group: u16,
    args: &Nums,
    inputs: &Nums,
) -> Result<(), NoMemory>
    requires args { length args.now < 2 ^ 16 }
    requires inputs { length inputs.now < 2 ^ 16 }
    ensures { OnOk result (out.new.items ≡ out.old.items ++ (to_be_bytes w16 proc ++ to_be_bytes w16 group ++ nums_bytes args.now ++ nums_bytes inputs.now)) }
{
    put_u16(out, proc)?;
    put_u16(out, group)?;
    put_nums(out, args.as_slice())?;
    put_nums(out, inputs.as_slice())?;
    Ok(())
}

// What a group that has started gave.
fn put_given(
    out: &mut Vec<u8>,
    group: u16,
    shard: Shard,
    bound: &Nums,
    outs: &Nums,
) -> Result<(), NoMemory>
    requires bound { length bound.now < 2 ^ 16 }
    requires outs { length outs.now < 2 ^ 16 }
    ensures { OnOk result (out.new.items ≡ out.old.items ++ (to_be_bytes w16 group ++ shard_bytes shard ++ nums_bytes bound.now ++ nums_bytes outs.now)) }
{
    put_u16(out, group)?;
    put_shard(out, shard)?;
    put_nums(out, bound.as_slice())?;
    put_nums(out, outs.as_slice())?;
    Ok(())
}

fn put_lists(out: &mut Vec<u8>, edges: &Edges, facts: &Facts) -> Result<(), NoMemory>
    requires edges { length edges.now < 2 ^ 16 }
    requires facts { FitsFacts facts.now }
    ensures { OnOk result (out.new.items ≡ out.old.items ++ (edges_bytes edges.now ++ facts_bytes facts.now)) }
{
    put_edges(out, edges.as_slice())?;
    put_facts(out, facts.as_slice())
}

fn put_shard(out: &mut Vec<u8>, shard: Shard) -> Result<(), NoMemory>
    ensures { OnOk result (out.new.items ≡ out.old.items ++ shard_bytes shard) }
{
    put_u8(out, shard.0)?;
    Ok(())
}

fn put_id(out: &mut Vec<u8>, id: TxnId) -> Result<(), NoMemory>
    ensures { OnOk result (out.new.items ≡ out.old.items ++ id_bytes id) }
{
    put_u16(out, id.coord)?;
    put_u32(out, id.seq)?;
    Ok(())
}

fn put_nums(out: &mut Vec<u8>, nums: &[i64]) -> Result<(), NoMemory>
    requires { length nums.now < 2 ^ 16 }
    ensures { OnOk result (out.new.items ≡ out.old.items ++ nums_bytes nums.now) }
{
    put_u16(out, nums.len() as u16)?;
    for num in nums {
        put_i64(out, *num)?;
    }
    Ok(())
}

fn put_versions(out: &mut Vec<u8>, versions: &[u64]) -> Result<(), NoMemory>
    requires { length versions.now < 2 ^ 16 }
    ensures { OnOk result (out.new.items ≡ out.old.items ++ versions_bytes versions.now) }
{
    put_u16(out, versions.len() as u16)?;
    for version in versions {
        put_u64(out, *version)?;
    }
    Ok(())
}

// The number of an edge's tags.
fn tags_number(edge: Edge) -> u8
    ensures { result ≡ tags_of edge }
{
    if edge.imm() {
        if edge.def() { 3 } else { 1 }
    } else {
        2
    }
}

fn put_edge(out: &mut Vec<u8>, edge: Edge) -> Result<(), NoMemory>
    ensures { OnOk result (out.new.items ≡ out.old.items ++ edge_bytes edge) }
{
    put_id(out, edge.from())?;
    put_u8(out, tags_number(edge))?;
    put_u8(out, edge.at().0)?;
    Ok(())
}

fn put_edges(out: &mut Vec<u8>, edges: &[Edge]) -> Result<(), NoMemory>
    requires { length edges.now < 2 ^ 16 }
    ensures { OnOk result (out.new.items ≡ out.old.items ++ edges_bytes edges.now) }
{
    put_u16(out, edges.len() as u16)?;
    for edge in edges {
        put_edge(out, *edge)?;
    }
    Ok(())
}

fn put_fact(out: &mut Vec<u8>, fact: &KnownList) -> Result<(), NoMemory>
    requires { length fact.now.edges < 2 ^ 16 }
    ensures { OnOk result (out.new.items ≡ out.old.items ++ fact_bytes fact.now) }
{
    put_id(out, fact.of)?;
    put_edges(out, fact.edges.as_slice())
}

fn put_facts(out: &mut Vec<u8>, facts: &[KnownList]) -> Result<(), NoMemory>
    requires facts { length facts.now < 2 ^ 16 }
    requires edges { All (λ fact. length fact.edges < 2 ^ 16) facts.now }
    ensures { OnOk result (out.new.items ≡ out.old.items ++ facts_bytes facts.now) }
{
    put_u16(out, facts.len() as u16)?;
    for fact in facts {
        put_fact(out, fact)?;
    }
    Ok(())
}
