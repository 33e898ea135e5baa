//! Reading the lists of a datagram.
ghost use Rattle.std.specs.Prelude.{◌≡◌, None, IfOk};
ghost use Rattle.std.specs.Int.{w64};
ghost use Rattle.roc_base.specs.Edges.{comes_before};
ghost use Rattle.roc_msg.specs.Facts.{most_fact_edges};
ghost use Rattle.roc_sequence.specs.Rising.{IsRising};
ghost use Rattle.roc_wire.specs.Fits.{FitsFact, last_from, room_behind};
ghost use Rattle.roc_wire.specs.Reading.{IsRead, number_read, several_read, num_read, nums_read, versions_read, edge_read, edges_read, fact_read, facts_read};

use crate::WireFault;
use crate::fields::{edge_of, num_of, rising_of, u16_within, u64_of};
use roc_base::{Edge, Edges, NoMemory, Nums, TxnId};
use roc_depgraph::KnownList;
use roc_msg::{CellVersions, Facts};
use std::alloc::Global;

#[tactic(auto, unfolding(crate::specs::Reading::nums_read))]
pub(crate) fn nums_of(alloc: Global, most: u16, bytes: &[u8]) -> Result<(Nums, &[u8]), WireFault>
    ensures { IsRead (λ x. (x.0, x.1.now)) result (nums_read most bytes.now) }
{
    let (count, rest) = u16_within(bytes, 0, most)?;
    let (nums, rest) = several_nums(alloc, count, rest)?;
    Ok((nums, rest))
}

fn several_nums(alloc: Global, count: u16, bytes: &[u8]) -> Result<(Nums, &[u8]), WireFault>
    ensures { IsRead (λ x. (x.0, x.1.now)) result (several_read num_read (λ s n. s) count tt bytes.now) }
{
    let mut nums = Nums::new(alloc);
    let mut rest = bytes;
    for _ in 0..count {
        let (num, after) = num_of(rest)?;
        nums.push(num)?;
        rest = after;
    }
    Ok((nums, rest))
}

#[tactic(auto, unfolding(crate::specs::Reading::versions_read))]
pub(crate) fn versions_of(alloc: Global, bytes: &[u8]) -> Result<(CellVersions, &[u8]), WireFault>
    ensures { IsRead (λ x. (x.0, x.1.now)) result (versions_read bytes.now) }
{
    let (count, rest) = u16_within(bytes, 0, 64)?;
    let (versions, rest) = several_versions(alloc, count, rest)?;
    Ok((versions, rest))
}

fn several_versions(
    alloc: Global,
    count: u16,
    bytes: &[u8],
) -> Result<(CellVersions, &[u8]), WireFault>
    ensures { IsRead (λ x. (x.0, x.1.now)) result (several_read (λ (s : Unit {0}). number_read w64) (λ s n. s) count tt bytes.now) }
{
    let mut versions = CellVersions::new(alloc);
    let mut rest = bytes;
    for _ in 0..count {
        let (version, after) = u64_of(rest)?;
        versions.push(version)?;
        rest = after;
    }
    Ok((versions, rest))
}

#[tactic(auto, unfolding(crate::specs::Reading::edges_read))]
pub(crate) fn edges_of(alloc: Global, most: u16, bytes: &[u8]) -> Result<(Edges, &[u8]), WireFault>
    ensures { IsRead (λ x. (x.0, x.1.now)) result (edges_read most bytes.now) }
{
    let (count, rest) = u16_within(bytes, 0, most)?;
    let (entries, rest) = rising_entries(alloc, count, rest)?;
    let edges = list_of(alloc, entries.as_slice())?;
    Ok((edges, rest))
}

// Entries that rise, as a list.
fn list_of(alloc: Global, entries: &[Edge]) -> Result<Edges, NoMemory>
    requires { IsRising comes_before entries.now }
    ensures { IfOk result (λ edges. edges ≡ entries.now) }
{
    let mut edges = Edges::new(alloc);
    edges.unite(entries)?;
    Ok(edges)
}

fn rising_entries(alloc: Global, count: u16, bytes: &[u8]) -> Result<(Vec<Edge>, &[u8]), WireFault>
    ensures given { IsRead (λ x. (x.0.items, x.1.now)) result (several_read edge_read last_from count None bytes.now) }
    ensures rising { IfOk result (λ x. IsRising comes_before x.0.items) }
{
    several_entries(alloc, count, bytes)
}

fn several_entries(alloc: Global, count: u16, bytes: &[u8]) -> Result<(Vec<Edge>, &[u8]), WireFault>
    ensures { IsRead (λ x. (x.0.items, x.1.now)) result (several_read edge_read last_from count None bytes.now) }
{
    let mut entries = Vec::new(alloc);
    let mut last = None;
    let mut rest = bytes;
    for _ in 0..count {
        let (from, imm, def, at, after) = edge_of(last, rest)?;
        if entries.push(Edge::new(from, imm, def, at)).is_err() {
            return Err(WireFault::NoMemory);
        }
        last = Some(from);
        rest = after;
    }
    Ok((entries, rest))
}

#[tactic(auto, unfolding(crate::specs::Reading::facts_read))]
pub(crate) fn facts_of(alloc: Global, bytes: &[u8]) -> Result<(Facts, &[u8]), WireFault>
    ensures { IsRead (λ x. (x.0, x.1.now)) result (facts_read bytes.now) }
{
    let (count, rest) = u16_within(bytes, 0, 16)?;
    let (facts, rest) = several_facts(alloc, count, rest)?;
    Ok((facts, rest))
}

fn several_facts(alloc: Global, count: u16, bytes: &[u8]) -> Result<(Facts, &[u8]), WireFault>
    ensures { IsRead (λ x. (x.0, x.1.now)) result (several_read fact_read room_behind count (None, most_fact_edges) bytes.now) }
{
    let mut facts = Facts::new(alloc);
    let mut last = None;
    let mut left = 1000u16;
    let mut rest = bytes;
    for _ in 0..count {
        let (fact, after) = fitting_fact(alloc, last, left, rest)?;
        left -= fact.edges.len() as u16;
        last = Some(fact.of);
        facts.push(fact)?;
        rest = after;
    }
    Ok((facts, rest))
}

fn fitting_fact(
    alloc: Global,
    last: Option<TxnId>,
    left: u16,
    bytes: &[u8],
) -> Result<(KnownList, &[u8]), WireFault>
    ensures given { IsRead (λ x. (x.0, x.1.now)) result (fact_read (last, left) bytes.now) }
    ensures fits { IfOk result (λ x. FitsFact (last, left) x.0) }
{
    fact_of(alloc, last, left, bytes)
}

#[tactic(auto, unfolding(crate::specs::Reading::fact_read))]
fn fact_of(
    alloc: Global,
    last: Option<TxnId>,
    left: u16,
    bytes: &[u8],
) -> Result<(KnownList, &[u8]), WireFault>
    ensures { IsRead (λ x. (x.0, x.1.now)) result (fact_read (last, left) bytes.now) }
{
    let (of, rest) = rising_of(last, bytes)?;
    let (edges, rest) = edges_of(alloc, left, rest)?;
    Ok((KnownList { of, edges }, rest))
}
