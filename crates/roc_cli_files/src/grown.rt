//! The workload that a workload is to grow to.
ghost use Rattle.std.specs.Prelude.{◌≡◌, ◌≢◌, ℕ, List, false, IfOk, IfErr};
ghost use Rattle.roc_io.specs.Cause.{HasCause};
ghost use Rattle.roc_cli_words.specs.Commands.{growth_of};
ghost use Rattle.roc_cli_files.specs.Fault.{blames_file, blames_sink, blames_link, fails_by, ReadsBut};
ghost use Rattle.roc_cli_files.specs.NodeNames.{HoldsNext, HoldsGrowth, NextFails, GrowthFails};
ghost use Rattle.roc_cli_files.specs.Inner.Grown.{IsJudgedNext, IsJudgedTag, ApartFails};

use crate::fault::Fault;
use crate::tagged::{Tagged, tagged_of};
use roc_cli_words::Growth;
use roc_epoch::{Next, extends};
use roc_io::{Files, Sink};
use roc_plan::Plan;
use std::alloc::Global;

/// The workload that a file holds, as nodes with so many coordinators are to know it that go over to it from a workload with this plan. Where it is not
/// acceptable, standard output is told why; that it is no grown one is judged behind that.
pub fn next_of<'a, F: Files, S: Sink>(
    alloc: Global,
    files: &mut F,
    name: &'a str,
    plan: &Plan,
    coords: u16,
    out: &mut S,
) -> Result<Next, Fault<'a>>
    ensures held { IfOk result (HoldsNext (F.content files.old) name.entry.now plan.now.program coords) }
    ensures untouched { IfOk result (λ next. S.taken out.new ≡ S.taken out.old) }
    ensures fails { IfErr result (NextFails (F.content files.old) name.entry.now plan.now.program (S.taken out.old) (S.taken out.new)) }
    ensures failed { ReadsBut (F.failed_names files.old) (F.failed_names files.new) result }
    ensures file_faults { HasCause (fails_by blames_file result) (F.faults files.old) (F.faults files.new) }
    ensures sink_faults { HasCause (fails_by blames_sink result) (S.faults out.old) (S.faults out.new) }
    ensures unchanged { (other : List ℕ) → F.content files.new other ≡ F.content files.old other }
    ensures no_link { fails_by blames_link result ≡ false }
{
    match tagged_of(alloc, files, name, out) {
        Ok(tagged) => judged(name, plan, tagged, coords),
        Err(fault) => Err(fault),
    }
}

// The same, once the file was read.
fn judged<'a>(name: &'a str, plan: &Plan, tagged: Tagged, coords: u16) -> Result<Next, Fault<'a>>
    ensures judged { IsJudgedNext name.entry.now plan.now.program tagged coords result }
    ensures no_file { fails_by blames_file result ≡ false }
    ensures no_sink { fails_by blames_sink result ≡ false }
    ensures no_link { fails_by blames_link result ≡ false }
{
    match extends(plan, &tagged.plan) {
        Ok(()) => Ok(Next {
            plan: tagged.plan,
            tag: tagged.tag,
            coords,
        }),
        Err(fault) => Err(Fault::Growth { file: name, fault }),
    }
}

/// The workload to grow to of nodes that run one with this plan and this tag, where it is named.
pub(crate) fn next_named<'a, F: Files, S: Sink>(
    alloc: Global,
    files: &mut F,
    growth: Option<Growth<'a>>,
    plan: &Plan,
    tag: &[u8; 8],
    out: &mut S,
) -> Result<Option<Next>, Fault<'a>>
    ensures held { IfOk result (HoldsGrowth (F.content files.old) (growth_of growth.entry) plan.now.program tag.now) }
    ensures untouched { IfOk result (λ next. S.taken out.new ≡ S.taken out.old) }
    ensures fails { IfErr result (GrowthFails (F.content files.old) (growth_of growth.entry) plan.now.program tag.now (S.taken out.old) (S.taken out.new)) }
    ensures failed { ReadsBut (F.failed_names files.old) (F.failed_names files.new) result }
    ensures file_faults { HasCause (fails_by blames_file result) (F.faults files.old) (F.faults files.new) }
    ensures sink_faults { HasCause (fails_by blames_sink result) (S.faults out.old) (S.faults out.new) }
    ensures unchanged { (other : List ℕ) → F.content files.new other ≡ F.content files.old other }
    ensures no_link { fails_by blames_link result ≡ false }
{
    match growth {
        Some(growth) => match next_apart(alloc, files, growth, plan, tag, out) {
            Ok(next) => Ok(Some(next)),
            Err(fault) => Err(fault),
        },
        None => Ok(None),
    }
}

// The same of one that is named.
fn next_apart<'a, F: Files, S: Sink>(
    alloc: Global,
    files: &mut F,
    growth: Growth<'a>,
    plan: &Plan,
    tag: &[u8; 8],
    out: &mut S,
) -> Result<Next, Fault<'a>>
    ensures held { IfOk result (λ next. HoldsNext (F.content files.old) growth.entry.workload.now plan.now.program growth.entry.coords next × (next.tag ≢ tag.now)) }
    ensures untouched { IfOk result (λ next. S.taken out.new ≡ S.taken out.old) }
    ensures fails { IfErr result (ApartFails (F.content files.old) growth.entry.workload.now growth.entry.coords plan.now.program tag.now (S.taken out.old) (S.taken out.new)) }
    ensures failed { ReadsBut (F.failed_names files.old) (F.failed_names files.new) result }
    ensures file_faults { HasCause (fails_by blames_file result) (F.faults files.old) (F.faults files.new) }
    ensures sink_faults { HasCause (fails_by blames_sink result) (S.faults out.old) (S.faults out.new) }
    ensures unchanged { (other : List ℕ) → F.content files.new other ≡ F.content files.old other }
    ensures no_link { fails_by blames_link result ≡ false }
{
    match next_of(alloc, files, growth.workload, plan, growth.coords, out) {
        Ok(next) => apart(growth.workload, tag, next),
        Err(fault) => Err(fault),
    }
}

// What comes next, where it has another tag.
fn apart<'a>(name: &'a str, tag: &[u8; 8], next: Next) -> Result<Next, Fault<'a>>
    ensures judged { IsJudgedTag name.entry.now tag.now next result }
    ensures no_file { fails_by blames_file result ≡ false }
    ensures no_sink { fails_by blames_sink result ≡ false }
    ensures no_link { fails_by blames_link result ≡ false }
{
    if next.tag == *tag {
        return Err(Fault::Same(name));
    }
    Ok(next)
}
