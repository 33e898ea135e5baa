//! What is asked for, where lists are new.
ghost use Rattle.std.specs.Prelude.{◌≡◌, ◌≤◌, length, IsOk, IfOk, OnOk};
ghost use Rattle.std.specs.List.{flat_map};
ghost use Rattle.roc_base.specs.Edges.{united};
ghost use Rattle.roc_step.specs.Waits.{with_all_asked};
ghost use Rattle.roc_step.specs.Asking.{open_after, waiting_after};

use crate::askers::drop_all;
use roc_await::{OpenFetch, Waits};
use roc_base::{Edges, NoMemory};
use roc_depgraph::KnownList;
use std::alloc::Global;

/// All entries of lists, those of one transaction joined.
pub fn all_edges(alloc: Global, lists: &[KnownList]) -> Result<Edges, NoMemory>
    ensures { IfOk result (λ edges. edges ≡ united (flat_map (λ k. k.edges) lists.now)) }
{
    let mut met = Vec::new(alloc);
    for k in lists {
        met.extend_from_slice(k.edges.as_slice())?;
    }
    let mut edges = Edges::new(alloc);
    edges.unite(&met)?;
    Ok(edges)
}

/// Those who asked for the new lists wait no longer, no fetch of these is open, and what they lack was asked for. `NoMemory` leaves a
/// part of this done, and comes only where `spare` does not suffice for what is asked for.
pub fn wait_for(waits: &mut Waits, news: &[KnownList], asks: &[OpenFetch]) -> Result<(), NoMemory>
    ensures waiting { OnOk result (waits.new.waiting ≡ waiting_after waits.old.waiting news.now asks.now) }
    ensures fetches { OnOk result (waits.new.fetches ≡ open_after waits.old.fetches news.now asks.now) }
    ensures succeeds { length asks.now ≤ waits.old.spare → IsOk result }
{
    drop_all(waits, news);
    keep_asked(waits, asks)
}

// They were asked for.
fn keep_asked(waits: &mut Waits, asks: &[OpenFetch]) -> Result<(), NoMemory>
    ensures waiting { OnOk result (waits.new.waiting ≡ record waits.old.waiting { asked = with_all_asked asks.now waits.old.waiting.asked }) }
    ensures fetches { OnOk result (waits.new.fetches ≡ with_all_asked asks.now waits.old.fetches) }
    ensures succeeds { length asks.now ≤ waits.old.spare → IsOk result }
{
    for a in asks {
        waits.ask(*a)?;
    }
    Ok(())
}
