//! The records of a journal are taken one by one.
ghost use Rattle.std.specs.Prelude.{◌≡◌, ◌<◌, ℕ, true, false, List, [], Some, IfOk, IfErr, IfSome, OnOk, length};
ghost use Rattle.roc_base.specs.declared.node.Shard.{Shard};
ghost use Rattle.roc_io.specs.Cause.{HasCause};
ghost use Rattle.roc_disk.specs.Over.{Stays};
ghost use Rattle.roc_journal.specs.Reading.{IsGateWithin};
ghost use Rattle.roc_journal.specs.declared.record.Record.{Record as RecordValue};
ghost use Rattle.roc_server.specs.Ahead.{ServingFits};
ghost use Rattle.roc_step.specs.Reads.{is_taken};
ghost use Rattle.roc_kept.specs.declared.fault.OpenFault.TheVariants.{NoMemory as no_memory};
ghost use Rattle.roc_kept.specs.Opening.{opening_failed, GivesSome, IsFurther, IsTakenTo, TakesAgain, TakesNext, TakesAll};

use crate::OpenFault;
use roc_disk::Disk;
use roc_journal::{ReadFault, Reader, Record};
use roc_msg::{Msg, NodeFault, Outbox};
use roc_plan::Plan;
use roc_server::{Handled, Server};
use std::alloc::Global;

// Whether a server took a message that it answered so.
fn was_taken(answer: Handled) -> bool
    ensures { result ≡ is_taken answer }
{
    match answer {
        Handled::Done | Handled::Gone => true,
        Handled::Ignored(_) => false,
    }
}

// Takes a message for which a record was found. False where the server ignores it.
fn take_again(alloc: Global, plan: &Plan, msg: &Msg, server: &mut Server) -> Result<bool, OpenFault>
    requires fits { ServingFits plan.now server.old }
    ensures step { IfOk result (TakesAgain plan.now msg.now server.old.state server.old.viewing server.new.state server.new.viewing) }
    ensures err { IfErr result (λ fault. fault ≡ no_memory) }
    ensures fits { ServingFits plan.now server.new }
    ensures shard { server.new.state.shard ≡ server.old.state.shard }
{
    let mut outbox = Outbox::new(alloc);
    match server.handle(plan, msg, &mut outbox) {
        Ok(answer) => Ok(was_taken(answer)),
        Err(NodeFault::NoMemory) => Err(OpenFault::NoMemory),
    }
}

// The same with the record, which is of no more use.
fn take_found(
    alloc: Global,
    plan: &Plan,
    found: Record,
    server: &mut Server,
) -> Result<bool, OpenFault>
    requires fits { ServingFits plan.now server.old }
    ensures step { IfOk result (TakesAgain plan.now found.msg server.old.state server.old.viewing server.new.state server.new.viewing) }
    ensures err { IfErr result (λ fault. fault ≡ no_memory) }
    ensures fits { ServingFits plan.now server.new }
    ensures shard { server.new.state.shard ≡ server.old.state.shard }
{
    take_again(alloc, plan, &found.msg, server)
}

// Reads one record more, and takes it: the reader behind it. `None` where the journal ends.
fn take_next<D: Disk>(
    alloc: Global,
    plan: &Plan,
    server: &mut Server,
    reader: Reader,
    disk: &mut D,
) -> Result<Option<Reader>, OpenFault>
    requires fits { ServingFits plan.now server.old }
    requires within { IsGateWithin reader }
    requires len { D.tells disk.old ≡ true → (name : List ℕ) → D.file disk.old ≡ Some name → reader.len ≡ length (D.content disk.old name) }
    ensures cause { HasCause (opening_failed result) (D.faults disk.old) (D.faults disk.new) }
    ensures told { D.tells disk.new ≡ true → D.tells disk.old ≡ true }
    ensures stays { D.tells disk.new ≡ true → Stays D.Disk disk.old disk.new }
    ensures further { IfOk result (λ next. IfSome next (IsFurther reader)) }
    ensures moves { IfOk result (λ next. IfSome next (λ next. reader.gate < next.gate)) }
    ensures fits { ServingFits plan.now server.new }
    ensures shard { server.new.state.shard ≡ server.old.state.shard }
    ensures gives { (shard : Shard) → GivesSome plan.now shard server.old.state server.old.viewing → OnOk result (GivesSome plan.now shard server.new.state server.new.viewing) }
    ensures taken { D.tells disk.new ≡ true → (name : List ℕ) → D.file disk.old ≡ Some name → (shard : Shard) (records : List RecordValue)
        → IsTakenTo plan.now shard (D.content disk.old name) records reader server.old.state server.old.viewing
        → TakesNext plan.now shard (D.content disk.old name) records reader server.old.state server.old.viewing server.new.state server.new.viewing result }
{
    let mut next = reader;
    match next.next(alloc, disk) {
        Err(ReadFault::Journal(at)) => Err(OpenFault::Journal(at)),
        Err(ReadFault::Disk) => Err(OpenFault::Disk),
        Err(ReadFault::NoMemory) => Err(OpenFault::NoMemory),
        Ok(None) => Ok(None),
        Ok(Some((at, found))) => match take_found(alloc, plan, found, server) {
            Err(fault) => Err(fault),
            Ok(true) => Ok(Some(next)),
            Ok(false) => Err(OpenFault::Journal(at)),
        },
    }
}

// Takes all records of a journal: the reader at its end.
pub(crate) fn take_records<D: Disk>(
    alloc: Global,
    plan: &Plan,
    server: &mut Server,
    reader: Reader,
    disk: &mut D,
) -> Result<Reader, OpenFault>
    requires fits { ServingFits plan.now server.old }
    requires within { IsGateWithin reader }
    requires len { D.tells disk.old ≡ true → (name : List ℕ) → D.file disk.old ≡ Some name → reader.len ≡ length (D.content disk.old name) }
    ensures cause { HasCause (opening_failed result) (D.faults disk.old) (D.faults disk.new) }
    ensures told { D.tells disk.new ≡ true → D.tells disk.old ≡ true }
    ensures stays { D.tells disk.new ≡ true → Stays D.Disk disk.old disk.new }
    ensures further { IfOk result (IsFurther reader) }
    ensures fits { ServingFits plan.now server.new }
    ensures shard { server.new.state.shard ≡ server.old.state.shard }
    ensures gives { (shard : Shard) → GivesSome plan.now shard server.old.state server.old.viewing → OnOk result (GivesSome plan.now shard server.new.state server.new.viewing) }
    ensures taken { D.tells disk.new ≡ true → (name : List ℕ) → D.file disk.old ≡ Some name → (shard : Shard)
        → IsTakenTo plan.now shard (D.content disk.old name) [] reader server.old.state server.old.viewing
        → TakesAll plan.now shard reader.tag (D.content disk.old name) server.new.state server.new.viewing result }
{
    let mut last = reader;
    'each: loop {
        match take_next(alloc, plan, server, last, disk) {
            Err(fault) => return Err(fault),
            Ok(None) => return Ok(last),
            Ok(Some(next)) => last = next,
        }
    }
}
