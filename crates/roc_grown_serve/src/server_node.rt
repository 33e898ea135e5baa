//! What a server's node that may go over to a grown workload makes of one event.
ghost use Rattle.std.specs.Prelude.{◌≡◌, [], true, false, length, IfOk};
ghost use Rattle.roc_node.specs.Counts.{with_taken};
ghost use Rattle.roc_node.specs.NodeEvent.{took, silent};
ghost use Rattle.roc_node_serve.specs.ServerRun.{is_stop};
ghost use Rattle.roc_wire.specs.Fits.{FitsHeader};
ghost use Rattle.roc_grown_node.specs.Posting.{grown_packets_for};
ghost use Rattle.roc_grown_node.specs.Setting.{grown_setting_of};
ghost use Rattle.roc_grown_serve.specs.GrownRun.{TakesGrownMessage, AfterGrownEvent, with_grown_answer};
ghost use Rattle.roc_grown_serve.specs.Inner.GrownTurn.{bare, IsReady, Leads};

use roc_base::NoMemory;
use roc_epoch::File;
use roc_grown::{GrownHandled, GrownServer};
use roc_grown_node::{GrownJudged, GrownSetting, grown_judge, grown_post};
use roc_io::{Addr, Datagram};
use roc_msg::{Msg, Outbox, Outgoing};
use roc_node::{Counts, Heard};
use std::alloc::Global;

/// A server with what its node keeps besides: where coordinators were heard, and its counts.
#[derive(Drop)]
pub struct GrownServerNode {
    pub server: GrownServer,
    pub heard: Heard,
    pub counts: Counts,
}

/// What a node gives in an event: whether it was stopped, and the datagrams that it sends.
#[derive(Drop)]
pub struct TurnOutput {
    pub stopped: bool,
    pub sends: Vec<Datagram>,
}

// One more was taken, and a server answered this to it.
fn count_answer(counts: &mut Counts, answer: GrownHandled)
    ensures { counts.new ≡ with_grown_answer counts.old answer }
{
    counts.take();
    match answer {
        GrownHandled::Done | GrownHandled::Gone | GrownHandled::Skipped => {}
        GrownHandled::Ignored(reason) => counts.ignores.add(reason),
    }
}

fn is_stop(msg: &Msg) -> bool
    ensures { result ≡ is_stop msg.now }
{
    matches!(msg, Msg::Stop)
}

// What a node that has switched or not gives for the messages that were sent for an event.
fn output_of(
    alloc: Global,
    setting: GrownSetting<'_>,
    switched: bool,
    heard: &Heard,
    outs: &[Outgoing],
) -> Result<TurnOutput, NoMemory>
    requires header { FitsHeader setting.header.now }
    requires cluster { length setting.cluster.now ≡ setting.plan.now.program.shards }
    ensures goes { IfOk result (λ output. output.stopped ≡ false) }
    ensures sends { IfOk result (λ output. output.sends.items ≡ grown_packets_for (grown_setting_of setting.entry) switched heard.now outs.now) }
{
    match grown_post(alloc, setting, switched, heard, outs) {
        Ok(sends) => Ok(TurnOutput {
            stopped: false,
            sends,
        }),
        Err(NoMemory) => Err(NoMemory),
    }
}

// A message for the core.
fn take_step(
    alloc: Global,
    setting: GrownSetting<'_>,
    server_node: &mut GrownServerNode,
    file: File,
    msg: &Msg,
    outbox: &mut Outbox,
) -> Result<TurnOutput, NoMemory>
    requires ready { IsReady (grown_setting_of setting) server_node.old }
    requires header { FitsHeader setting.header.now }
    requires cluster { length setting.cluster.now ≡ setting.plan.now.program.shards }
    requires empty { outbox.old.messages ≡ [] }
    ensures leads { IfOk result (Leads (TakesGrownMessage (grown_setting_of setting.entry) (bare server_node.old) false file msg.now) server_node.new) }
    ensures ready { IsReady (grown_setting_of setting.entry) server_node.new }
{
    let answer = match server_node
        .server
        .handle(setting.plan, Some(setting.next), file, msg, outbox)
    {
        Ok(answer) => answer,
        Err(_) => return Err(NoMemory),
    };
    let switched = server_node.server.switched();
    match output_of(
        alloc,
        setting,
        switched,
        &server_node.heard,
        outbox.messages(),
    ) {
        Ok(output) => {
            count_answer(&mut server_node.counts, answer);
            Ok(output)
        }
        Err(NoMemory) => Err(NoMemory),
    }
}

// The same with an outbox, which is let go here.
fn take_for_core(
    alloc: Global,
    setting: GrownSetting<'_>,
    server_node: &mut GrownServerNode,
    file: File,
    msg: &Msg,
) -> Result<TurnOutput, NoMemory>
    requires ready { IsReady (grown_setting_of setting) server_node.old }
    requires header { FitsHeader setting.header.now }
    requires cluster { length setting.cluster.now ≡ setting.plan.now.program.shards }
    ensures leads { IfOk result (Leads (TakesGrownMessage (grown_setting_of setting.entry) (bare server_node.old) false file msg.now) server_node.new) }
    ensures ready { IsReady (grown_setting_of setting.entry) server_node.new }
{
    let mut outbox = Outbox::new(alloc);
    take_step(alloc, setting, server_node, file, msg, &mut outbox)
}

// A stop is taken.
fn take_stop(alloc: Global, counts: &mut Counts) -> TurnOutput
    ensures counted { counts.new ≡ with_taken counts.old }
    ensures stops { result.stopped ≡ true }
    ensures sends { result.sends.items ≡ [] }
{
    counts.take();
    TurnOutput {
        stopped: true,
        sends: Vec::new(alloc),
    }
}

// A delivery: a stop is for the node, and any other message for its core. What came is let go here.
fn take_message(
    alloc: Global,
    setting: GrownSetting<'_>,
    server_node: &mut GrownServerNode,
    file: File,
    msg: Msg,
) -> Result<TurnOutput, NoMemory>
    requires ready { IsReady (grown_setting_of setting) server_node.old }
    requires header { FitsHeader setting.header.now }
    requires cluster { length setting.cluster.now ≡ setting.plan.now.program.shards }
    ensures leads { IfOk result (Leads (TakesGrownMessage (grown_setting_of setting.entry) (bare server_node.old) (is_stop msg) file msg) server_node.new) }
    ensures ready { IsReady (grown_setting_of setting.entry) server_node.new }
{
    if is_stop(&msg) {
        return Ok(take_stop(alloc, &mut server_node.counts));
    }
    take_for_core(alloc, setting, server_node, file, &msg)
}

/// A datagram from an address.
pub fn take_datagram(
    alloc: Global,
    setting: GrownSetting<'_>,
    server_node: &mut GrownServerNode,
    from: Addr,
    bytes: &[u8],
) -> Result<TurnOutput, NoMemory>
    requires ready { IsReady (grown_setting_of setting) server_node.old }
    requires header { FitsHeader setting.header.now }
    requires cluster { length setting.cluster.now ≡ setting.plan.now.program.shards }
    ensures leads { IfOk result (Leads (AfterGrownEvent (grown_setting_of setting.entry) (bare server_node.old)
        (took (record { address = from; bytes = bytes.now }))) server_node.new) }
    ensures ready { IsReady (grown_setting_of setting.entry) server_node.new }
{
    match grown_judge(alloc, setting, server_node.server.switched(), bytes) {
        Ok(GrownJudged::Delivery(sender, file, msg)) => {
            server_node.heard.hear(sender.from, from);
            take_message(alloc, setting, server_node, file, msg)
        }
        Ok(GrownJudged::Skipped(skip)) => {
            server_node.counts.skip(skip);
            Ok(TurnOutput {
                stopped: false,
                sends: Vec::new(alloc),
            })
        }
        Err(NoMemory) => Err(NoMemory),
    }
}

// Silence.
fn take_tick(
    alloc: Global,
    setting: GrownSetting<'_>,
    server_node: &mut GrownServerNode,
    outbox: &mut Outbox,
) -> Result<TurnOutput, NoMemory>
    requires header { FitsHeader setting.header.now }
    requires cluster { length setting.cluster.now ≡ setting.plan.now.program.shards }
    requires empty { outbox.old.messages ≡ [] }
    ensures leads { IfOk result (Leads (AfterGrownEvent (grown_setting_of setting.entry) (bare server_node.old) silent) server_node.new) }
    ensures same { server_node.new ≡ server_node.old }
{
    match server_node.server.tick(outbox) {
        Ok(()) => {}
        Err(_) => return Err(NoMemory),
    }
    let switched = server_node.server.switched();
    output_of(
        alloc,
        setting,
        switched,
        &server_node.heard,
        outbox.messages(),
    )
}

/// Silence: the server's tick.
pub fn take_silence(
    alloc: Global,
    setting: GrownSetting<'_>,
    server_node: &mut GrownServerNode,
) -> Result<TurnOutput, NoMemory>
    requires header { FitsHeader setting.header.now }
    requires cluster { length setting.cluster.now ≡ setting.plan.now.program.shards }
    ensures leads { IfOk result (Leads (AfterGrownEvent (grown_setting_of setting.entry) (bare server_node.old) silent) server_node.new) }
    ensures same { server_node.new ≡ server_node.old }
{
    let mut outbox = Outbox::new(alloc);
    take_tick(alloc, setting, server_node, &mut outbox)
}
