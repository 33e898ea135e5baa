//! Which messages have a spelling.
ghost use Rattle.std.specs.Prelude.{◌≡◌, ◌≤◌, ◌<◌, ◌^◌, ◌&&◌, nat_le, nat_lt, length, FitsSigned, IsTrue};
ghost use Rattle.std.specs.Int.{w64};
ghost use Rattle.std.specs.List.{list_all, AllByRecursion};
ghost use Rattle.roc_wire.specs.Fits.{FitsId, FitsShard, FitsNums, FitsVersions, FitsEdges, FitsFacts, FitsMsg, last_coordinator, most_nums, most_edges};
ghost use Rattle.roc_msg.specs.Facts.{most_fact_edges};
ghost use Rattle.roc_log.specs.Inner.InRange.{InRange, AreInRange};
ghost use Rattle.roc_log.specs.Spellable.{id_in_range, shard_in_range, few_nums, few_versions, edge_in_range, edges_in_range, lists_in_range, facts_in_range, has_spelling};

use roc_base::{Edge, Edges, Nums, Shard, TxnId};
use roc_depgraph::KnownList;
use roc_msg::{CellVersions, Facts, Msg};

/// The last coordinator and the last shard that a datagram can name.
const LAST_COORDINATOR: u16 = 15;

const LAST_SHARD: u8 = 63;

const MOST_ARGS: usize = 8;

const MOST_NUMS: usize = 1024;

const MOST_VERSIONS: usize = 64;

const MOST_EDGES: usize = 4096;

const MOST_FACTS: usize = 16;

const MOST_FACT_EDGES: usize = 1000;

/// Whether a message has a spelling. Takes no memory.
pub fn has_spelling(msg: &Msg) -> bool
    ensures is { result ≡ has_spelling msg.now }
    ensures fits { IsTrue result → FitsMsg msg.now }
{
    match msg {
        Msg::Start {
            id,
            proc,
            group,
            args,
            inputs,
        } => start_in_range(*id, *proc, *group, args, inputs),
        Msg::StartOk {
            id,
            shard,
            bound,
            outs,
            edges,
            facts,
            group,
        } => startok_in_range(*id, *group, *shard, bound, outs, edges, facts),
        Msg::Commit { id, edges, facts } => {
            if !id_in_range(*id) {
                return false;
            }
            are_lists_in_range(edges, facts)
        }
        Msg::CommitOk { id, shard, outs } => {
            is_at_in_range(*id, *shard) && few_nums(outs.as_slice(), MOST_NUMS)
        }
        Msg::Fetch { id, asker } => is_at_in_range(*id, *asker),
        Msg::Known { id, edges } => id_in_range(*id) && edges_in_range(edges, MOST_EDGES),
        Msg::Stop => true,
        Msg::Ended { coord, below } => ended_in_range(*coord, *below),
        Msg::Settled { id, below } => settled_in_range(*id, *below),
        Msg::Read {
            id,
            round,
            proc,
            group,
            args,
        } => read_in_range(*id, *round, *proc, *group, args),
        Msg::ReadOk {
            id,
            round,
            group,
            shard,
            versions,
            outs,
        } => readok_in_range(*id, *round, *group, *shard, versions, outs),
        Msg::Drained { upto } => id_in_range(*upto),
        Msg::Switched { upto, shard } => is_at_in_range(*upto, *shard),
    }
}

fn start_in_range(id: TxnId, proc: u16, group: u16, args: &Nums, inputs: &Nums) -> bool
    ensures is { result ≡ has_spelling (Msg.Start id proc group args.now inputs.now) }
    ensures fits { IsTrue result → FitsMsg (Msg.Start id proc group args.now inputs.now) }
{
    if !id_in_range(id) {
        return false;
    }
    are_few(args, inputs, MOST_ARGS)
}

fn startok_in_range(
    id: TxnId,
    group: u16,
    shard: Shard,
    bound: &Nums,
    outs: &Nums,
    edges: &Edges,
    facts: &Facts,
) -> bool
    ensures is { result ≡ has_spelling (Msg.StartOk id group shard bound.now outs.now edges.now facts.now) }
    ensures fits { IsTrue result → FitsMsg (Msg.StartOk id group shard bound.now outs.now edges.now facts.now) }
{
    if !is_startok_in_range(id, shard, bound, outs) {
        return false;
    }
    are_lists_in_range(edges, facts)
}

fn ended_in_range(coord: u16, below: u32) -> bool
    ensures is { result ≡ nat_le coord last_coordinator }
    ensures fits { IsTrue result → (coord ≤ last_coordinator) × (below < 2 ^ 32) }
{
    let _read = below;
    coord <= LAST_COORDINATOR
}

fn settled_in_range(id: TxnId, below: u32) -> bool
    ensures is { result ≡ (id_in_range id && nat_lt id.seq below) }
    ensures fits { IsTrue result → FitsId id × (id.seq < below) × (below < 2 ^ 32) }
{
    if !id_in_range(id) {
        return false;
    }
    id.seq < below
}

fn read_in_range(id: TxnId, round: u32, proc: u16, group: u16, args: &Nums) -> bool
    ensures is { result ≡ has_spelling (Msg.Read id round proc group args.now) }
    ensures fits { IsTrue result → FitsMsg (Msg.Read id round proc group args.now) }
{
    if !id_in_range(id) {
        return false;
    }
    few_nums(args.as_slice(), MOST_ARGS)
}

fn readok_in_range(
    id: TxnId,
    round: u32,
    group: u16,
    shard: Shard,
    versions: &CellVersions,
    outs: &Nums,
) -> bool
    ensures is { result ≡ has_spelling (Msg.ReadOk id round group shard versions.now outs.now) }
    ensures fits { IsTrue result → FitsMsg (Msg.ReadOk id round group shard versions.now outs.now) }
{
    if !is_at_in_range(id, shard) {
        return false;
    }
    are_found_in_range(versions, outs)
}

fn id_in_range(id: TxnId) -> bool
    ensures is { result ≡ id_in_range id }
    ensures fits { IsTrue result → FitsId id }
{
    id.coord <= LAST_COORDINATOR
}

fn shard_in_range(shard: Shard) -> bool
    ensures is { result ≡ shard_in_range shard }
    ensures fits { IsTrue result → FitsShard shard }
{
    shard.0 <= LAST_SHARD
}

fn few_nums(nums: &[i64], most: usize) -> bool
    ensures is { result ≡ few_nums most nums.now }
    ensures fits { IsTrue result → FitsNums most nums.now }
{
    if nums.len() > most {
        return false;
    }
    have_width(nums);
    true
}

// Each number has the width of its type: nothing is done, but that the contract says so.
fn have_width(nums: &[i64])
    ensures { AllByRecursion (FitsSigned w64) nums.now }
{
    for num in nums {
        has_width(*num);
    }
}

fn has_width(num: i64)
    ensures { FitsSigned w64 num }
{
    let _read = num;
}

fn few_versions(versions: &[u64]) -> bool
    ensures is { result ≡ few_versions versions.now }
    ensures fits { IsTrue result → FitsVersions versions.now }
{
    versions.len() <= MOST_VERSIONS
}

fn are_found_in_range(versions: &CellVersions, outs: &Nums) -> bool
    ensures is { result ≡ (few_versions versions.now && few_nums most_nums outs.now) }
    ensures fits { IsTrue result → FitsVersions versions.now × FitsNums most_nums outs.now }
{
    if !few_versions(versions.as_slice()) {
        return false;
    }
    few_nums(outs.as_slice(), MOST_NUMS)
}

fn are_few(some: &Nums, others: &Nums, most: usize) -> bool
    ensures is { result ≡ (few_nums most some.now && few_nums most_nums others.now) }
    ensures fits { IsTrue result → FitsNums most some.now × FitsNums most_nums others.now }
{
    if !few_nums(some.as_slice(), most) {
        return false;
    }
    few_nums(others.as_slice(), MOST_NUMS)
}

fn is_at_in_range(id: TxnId, shard: Shard) -> bool
    ensures is { result ≡ (id_in_range id && shard_in_range shard) }
    ensures fits { IsTrue result → FitsId id × FitsShard shard }
{
    if !id_in_range(id) {
        return false;
    }
    shard_in_range(shard)
}

fn is_startok_in_range(id: TxnId, shard: Shard, bound: &Nums, outs: &Nums) -> bool
    ensures is { result ≡ (id_in_range id && shard_in_range shard && few_nums most_nums bound.now && few_nums most_nums outs.now) }
    ensures fits { IsTrue result → FitsId id × FitsShard shard × FitsNums most_nums bound.now × FitsNums most_nums outs.now }
{
    if !is_at_in_range(id, shard) {
        return false;
    }
    are_few(bound, outs, MOST_NUMS)
}

fn are_lists_in_range(edges: &Edges, facts: &Facts) -> bool
    ensures is { result ≡ (edges_in_range most_edges edges.now && facts_in_range facts.now) }
    ensures fits { IsTrue result → FitsEdges most_edges edges.now × FitsFacts facts.now }
{
    if !edges_in_range(edges, MOST_EDGES) {
        return false;
    }
    facts_in_range(facts)
}

fn edge_in_range(edge: Edge) -> bool
    ensures is { result ≡ edge_in_range edge }
    ensures fits { IsTrue result → InRange edge }
{
    is_at_in_range(edge.from(), edge.at())
}

fn edges_in_range(edges: &Edges, most: usize) -> bool
    ensures is { result ≡ edges_in_range most edges.now }
    ensures fits { IsTrue result → FitsEdges most edges.now }
{
    if edges.len() > most {
        return false;
    }
    all_in_range(edges.as_slice())
}

fn all_in_range(edges: &[Edge]) -> bool
    ensures is { result ≡ list_all edge_in_range edges.now }
    ensures fits { IsTrue result → AllByRecursion InRange edges.now }
{
    for edge in edges {
        if !edge_in_range(*edge) {
            return false;
        }
    }
    true
}

fn facts_in_range(facts: &Facts) -> bool
    ensures is { result ≡ facts_in_range facts.now }
    ensures fits { IsTrue result → FitsFacts facts.now }
{
    if facts.len() > MOST_FACTS {
        return false;
    }
    lists_in_range(facts.as_slice())
}

fn fact_in_range(fact: &KnownList, entries: usize) -> bool
    ensures is { result ≡ (id_in_range fact.now.of && edges_in_range entries fact.now.edges) }
    ensures fits { IsTrue result → FitsId fact.now.of × FitsEdges entries fact.now.edges }
    ensures few { IsTrue result → length fact.now.edges ≤ entries }
{
    if !id_in_range(fact.of) {
        return false;
    }
    edges_in_range(&fact.edges, entries)
}

fn lists_in_range(facts: &[KnownList]) -> bool
    ensures is { result ≡ lists_in_range most_fact_edges facts.now }
    ensures fits { IsTrue result → AreInRange most_fact_edges facts.now }
{
    let mut entries = MOST_FACT_EDGES;
    for fact in facts {
        if !fact_in_range(fact, entries) {
            return false;
        }
        entries -= fact.edges.len();
    }
    true
}
