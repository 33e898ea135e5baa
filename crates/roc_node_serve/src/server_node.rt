//! What a server's node makes of one event.
ghost use Rattle.std.specs.Prelude.{◌≡◌, ◌∷◌, [], true, false, length, IfOk, IfErr};
ghost use Rattle.std.specs.Result.{is_ok};
ghost use Rattle.roc_io.specs.Link.{came};
ghost use Rattle.roc_kept.specs.declared.fault.KeptFault.TheVariants as KeptFault;
ghost use Rattle.roc_kept.specs.Kept.{kept_failed};
ghost use Rattle.roc_log.specs.declared.line.LogLine.TheVariants.{In};
ghost use Rattle.roc_log.specs.Sent.{outs_logged};
ghost use Rattle.roc_program.specs.Program.{Workload};
ghost use Rattle.roc_wire.specs.Fits.{FitsHeader, IsSpellable};
ghost use Rattle.roc_node.specs.Counts.{with_taken};
ghost use Rattle.roc_node.specs.NodeEvent.{took, silent};
ghost use Rattle.roc_node.specs.Posting.{packets_for};
ghost use Rattle.roc_node.specs.Setting.{setting_of};
ghost use Rattle.roc_node_serve.specs.ServerRun.{TakesMessage, AfterEvent, is_stop, with_answer};
ghost use Rattle.roc_node_serve.specs.Inner.JournalTurn.{IsOpen, KeepsBy, LeftAround, LeftBy, Hinders, HindersMessage};
ghost use Rattle.roc_node_serve.specs.Inner.LogTurn.{event_line, text_for};
ghost use Rattle.roc_node_serve.specs.Inner.ServerTurn.{bare, Leads};

use crate::logging::event_lines;
use roc_base::NoMemory;
use roc_disk::Disk;
use roc_io::{Addr, Datagram};
use roc_kept::{KeptFault, KeptServer};
use roc_msg::{Msg, Outbox, Outgoing};
use roc_node::{Counts, Heard, Judged, Setting, judge, post};
use roc_server::Handled;
use roc_wire::Header;
use std::alloc::Global;

/// A server with what its node keeps besides: where coordinators were heard, and its counts.
#[derive(Drop)]
pub struct ServerNode {
    pub server: KeptServer,
    pub heard: Heard,
    pub counts: Counts,
}

/// What a node gives in an event: whether it was stopped, the datagrams that it sends, and its lines for the book, none where no log is kept.
#[derive(Drop)]
pub struct TurnOutput {
    pub stopped: bool,
    pub sends: Vec<Datagram>,
    pub log: Vec<u8>,
}

/// One more was taken, and a server answered this to it.
pub fn count_answer(counts: &mut Counts, answer: Handled)
    ensures { counts.new ≡ with_answer counts.old answer }
{
    counts.take();
    match answer {
        Handled::Done | Handled::Gone => {}
        Handled::Ignored(reason) => counts.ignores.add(reason),
    }
}

fn is_stop(msg: &Msg) -> bool
    ensures { result ≡ is_stop msg.now }
{
    match msg {
        Msg::Stop => true,
        Msg::Start { .. } => false,
        Msg::StartOk { .. } => false,
        Msg::Commit { .. } => false,
        Msg::CommitOk { .. } => false,
        Msg::Fetch { .. } => false,
        Msg::Known { .. } => false,
        Msg::Ended { .. } => false,
        Msg::Settled { .. } => false,
        Msg::Read { .. } => false,
        Msg::ReadOk { .. } => false,
        Msg::Drained { .. } => false,
        Msg::Switched { .. } => false,
    }
}

// What a node gives for the messages that were sent for an event.
fn output_of(
    alloc: Global,
    setting: Setting<'_>,
    heard: &Heard,
    event: Option<&[u8]>,
    outs: &[Outgoing],
) -> Result<TurnOutput, NoMemory>
    requires header { FitsHeader setting.header.now }
    requires cluster { length setting.cluster.now ≡ setting.plan.now.program.shards }
    ensures goes { IfOk result (λ output. output.stopped ≡ false) }
    ensures sends { IfOk result (λ output. output.sends.items ≡ packets_for setting.entry.header.now setting.entry.cluster.now heard.now outs.now) }
    ensures log { (program : Workload) → IfOk result (λ output. output.log.items ≡ text_for setting.entry.logs program (event_line event.entry ∷ outs_logged setting.entry.header.now outs.now)) }
{
    let log = event_lines(alloc, setting, event, outs)?;
    let shards = setting.plan.workload().shards();
    match post(alloc, setting.header, setting.cluster, shards, heard, outs) {
        Ok(sends) => Ok(TurnOutput {
            stopped: false,
            sends,
            log,
        }),
        Err(NoMemory) => Err(NoMemory),
    }
}

// A message for the core, in the journal before anything is made of it.
fn take_step<D: Disk>(
    alloc: Global,
    setting: Setting<'_>,
    server_node: &mut ServerNode,
    header: &Header,
    bytes: &[u8],
    msg: &Msg,
    outbox: &mut Outbox,
    disk: &mut D,
) -> Result<TurnOutput, KeptFault>
    requires ready { IsOpen (setting_of setting) server_node.old.server }
    requires header { FitsHeader setting.header.now }
    requires cluster { length setting.cluster.now ≡ setting.plan.now.program.shards }
    requires tag { header.now.tag ≡ setting.header.now.tag }
    requires spelling { IsSpellable header.now msg.now }
    requires for_core { is_stop msg.now ≡ false }
    requires empty { outbox.old.messages ≡ [] }
    ensures leads { IfOk result (Leads setting.entry.logs (setting_of setting.entry)
        (TakesMessage (setting_of setting.entry) (bare server_node.old) false bytes.now msg.now) server_node.new) }
    ensures keeps { KeepsBy D.Disk disk.old disk.new (setting_of setting.entry)
        (LeftBy (setting_of setting.entry) false msg.now server_node.old.server)
        server_node.old.server server_node.new.server (kept_failed result) (is_ok result) }
    ensures hinders { HindersMessage disk.old disk.new (setting_of setting.entry) (bare server_node.old) server_node.old.server header.now msg.now result }
{
    let answer = match server_node
        .server
        .handle(alloc, setting.plan, header, msg, outbox, disk)
    {
        Ok(answer) => answer,
        Err(fault) => return Err(fault),
    };
    match output_of(
        alloc,
        setting,
        &server_node.heard,
        Some(bytes),
        outbox.messages(),
    ) {
        Ok(output) => {
            count_answer(&mut server_node.counts, answer);
            Ok(output)
        }
        Err(NoMemory) => Err(KeptFault::NoMemory),
    }
}

// The same with an outbox, which is let go here.
fn take_for_core<D: Disk>(
    alloc: Global,
    setting: Setting<'_>,
    server_node: &mut ServerNode,
    header: &Header,
    bytes: &[u8],
    msg: &Msg,
    disk: &mut D,
) -> Result<TurnOutput, KeptFault>
    requires ready { IsOpen (setting_of setting) server_node.old.server }
    requires header { FitsHeader setting.header.now }
    requires cluster { length setting.cluster.now ≡ setting.plan.now.program.shards }
    requires tag { header.now.tag ≡ setting.header.now.tag }
    requires spelling { IsSpellable header.now msg.now }
    requires for_core { is_stop msg.now ≡ false }
    ensures leads { IfOk result (Leads setting.entry.logs (setting_of setting.entry)
        (TakesMessage (setting_of setting.entry) (bare server_node.old) false bytes.now msg.now) server_node.new) }
    ensures keeps { KeepsBy D.Disk disk.old disk.new (setting_of setting.entry)
        (LeftBy (setting_of setting.entry) false msg.now server_node.old.server)
        server_node.old.server server_node.new.server (kept_failed result) (is_ok result) }
    ensures hinders { HindersMessage disk.old disk.new (setting_of setting.entry) (bare server_node.old) server_node.old.server header.now msg.now result }
{
    let mut outbox = Outbox::new(alloc);
    take_step(
        alloc,
        setting,
        server_node,
        header,
        bytes,
        msg,
        &mut outbox,
        disk,
    )
}

// These bytes stop the node.
fn take_stop(
    alloc: Global,
    setting: Setting<'_>,
    counts: &mut Counts,
    bytes: &[u8],
) -> Result<TurnOutput, KeptFault>
    requires { FitsHeader setting.header.now }
    ensures counted { IfOk result (λ output. counts.new ≡ with_taken counts.old) }
    ensures stops { IfOk result (λ output. (output.stopped ≡ true) × (output.sends.items ≡ [])) }
    ensures log { (program : Workload) → IfOk result (λ output. output.log.items ≡ text_for setting.entry.logs program (In bytes.now ∷ [])) }
    ensures none { IfErr result (λ fault. fault ≡ KeptFault.NoMemory) }
{
    match event_lines(alloc, setting, Some(bytes), &[]) {
        Ok(log) => {
            counts.take();
            Ok(TurnOutput {
                stopped: true,
                sends: Vec::new(alloc),
                log,
            })
        }
        Err(NoMemory) => Err(KeptFault::NoMemory),
    }
}

// A delivery from an address: a stop is for the node, and any other message for its core.
fn take_message<D: Disk>(
    alloc: Global,
    setting: Setting<'_>,
    server_node: &mut ServerNode,
    header: &Header,
    bytes: &[u8],
    msg: &Msg,
    disk: &mut D,
) -> Result<TurnOutput, KeptFault>
    requires ready { IsOpen (setting_of setting) server_node.old.server }
    requires header { FitsHeader setting.header.now }
    requires cluster { length setting.cluster.now ≡ setting.plan.now.program.shards }
    requires tag { header.now.tag ≡ setting.header.now.tag }
    requires spelling { IsSpellable header.now msg.now }
    ensures leads { IfOk result (Leads setting.entry.logs (setting_of setting.entry)
        (TakesMessage (setting_of setting.entry) (bare server_node.old) (is_stop msg.now) bytes.now msg.now) server_node.new) }
    ensures keeps { KeepsBy D.Disk disk.old disk.new (setting_of setting.entry)
        (LeftBy (setting_of setting.entry) (is_stop msg.now) msg.now server_node.old.server)
        server_node.old.server server_node.new.server (kept_failed result) (is_ok result) }
    ensures hinders { HindersMessage disk.old disk.new (setting_of setting.entry) (bare server_node.old) server_node.old.server header.now msg.now result }
{
    if is_stop(msg) {
        return take_stop(alloc, setting, &mut server_node.counts, bytes);
    }
    take_for_core(alloc, setting, server_node, header, bytes, msg, disk)
}

// The same of a message that came, which is let go here.
fn take_delivery<D: Disk>(
    alloc: Global,
    setting: Setting<'_>,
    server_node: &mut ServerNode,
    header: &Header,
    bytes: &[u8],
    msg: Msg,
    disk: &mut D,
) -> Result<TurnOutput, KeptFault>
    requires ready { IsOpen (setting_of setting) server_node.old.server }
    requires header { FitsHeader setting.header.now }
    requires cluster { length setting.cluster.now ≡ setting.plan.now.program.shards }
    requires tag { header.now.tag ≡ setting.header.now.tag }
    requires spelling { IsSpellable header.now msg }
    ensures leads { IfOk result (Leads setting.entry.logs (setting_of setting.entry)
        (TakesMessage (setting_of setting.entry) (bare server_node.old) (is_stop msg) bytes.now msg) server_node.new) }
    ensures keeps { KeepsBy D.Disk disk.old disk.new (setting_of setting.entry)
        (LeftBy (setting_of setting.entry) (is_stop msg) msg server_node.old.server)
        server_node.old.server server_node.new.server (kept_failed result) (is_ok result) }
    ensures hinders { HindersMessage disk.old disk.new (setting_of setting.entry) (bare server_node.old) server_node.old.server header.now msg result }
{
    take_message(alloc, setting, server_node, header, bytes, &msg, disk)
}

/// A datagram from an address.
pub fn take_datagram<D: Disk>(
    alloc: Global,
    setting: Setting<'_>,
    server_node: &mut ServerNode,
    from: Addr,
    bytes: &[u8],
    disk: &mut D,
) -> Result<TurnOutput, KeptFault>
    requires ready { IsOpen (setting_of setting) server_node.old.server }
    requires header { FitsHeader setting.header.now }
    requires cluster { length setting.cluster.now ≡ setting.plan.now.program.shards }
    ensures leads { IfOk result (Leads setting.entry.logs (setting_of setting.entry) (AfterEvent (setting_of setting.entry) (bare server_node.old)
        (took (record { address = from; bytes = bytes.now }))) server_node.new) }
    ensures keeps { KeepsBy D.Disk disk.old disk.new (setting_of setting.entry)
        (LeftAround (setting_of setting.entry) (bare server_node.old) (came (record { address = from; bytes = bytes.now }) ∷ []))
        server_node.old.server server_node.new.server (kept_failed result) (is_ok result) }
    ensures hinders { Hinders disk.old disk.new (setting_of setting.entry) (bare server_node.old) server_node.old.server
        (came (record { address = from; bytes = bytes.now }) ∷ []) result }
{
    match judge(alloc, setting.header.tag, bytes) {
        Ok(Judged::Delivery(sender, msg)) => {
            server_node.heard.hear(sender.from, from);
            take_delivery(alloc, setting, server_node, &sender, bytes, msg, disk)
        }
        Ok(Judged::Skipped(skip)) => {
            server_node.counts.skip(skip);
            Ok(TurnOutput {
                stopped: false,
                sends: Vec::new(alloc),
                log: Vec::new(alloc),
            })
        }
        Err(NoMemory) => Err(KeptFault::NoMemory),
    }
}

// Silence.
fn take_tick<D: Disk>(
    alloc: Global,
    setting: Setting<'_>,
    server_node: &mut ServerNode,
    outbox: &mut Outbox,
    disk: &mut D,
) -> Result<TurnOutput, NoMemory>
    requires header { FitsHeader setting.header.now }
    requires cluster { length setting.cluster.now ≡ setting.plan.now.program.shards }
    requires empty { outbox.old.messages ≡ [] }
    ensures leads { IfOk result (Leads setting.entry.logs (setting_of setting.entry) (AfterEvent (setting_of setting.entry) (bare server_node.old) silent) server_node.new) }
    ensures same { server_node.new ≡ server_node.old }
    ensures untouched { disk.new ≡ disk.old }
{
    match server_node.server.tick(outbox, disk) {
        Ok(()) => {}
        Err(_) => return Err(NoMemory),
    }
    output_of(alloc, setting, &server_node.heard, None, outbox.messages())
}

/// Silence: the server's tick.
pub fn take_silence<D: Disk>(
    alloc: Global,
    setting: Setting<'_>,
    server_node: &mut ServerNode,
    disk: &mut D,
) -> Result<TurnOutput, NoMemory>
    requires header { FitsHeader setting.header.now }
    requires cluster { length setting.cluster.now ≡ setting.plan.now.program.shards }
    ensures leads { IfOk result (Leads setting.entry.logs (setting_of setting.entry) (AfterEvent (setting_of setting.entry) (bare server_node.old) silent) server_node.new) }
    ensures same { server_node.new ≡ server_node.old }
    ensures untouched { disk.new ≡ disk.old }
{
    let mut outbox = Outbox::new(alloc);
    take_tick(alloc, setting, server_node, &mut outbox, disk)
}
