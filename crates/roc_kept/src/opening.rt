//! A journal is opened, and its records are taken.
ghost use Rattle.std.specs.Prelude.{◌≡◌, ℕ, true, false, List, [], None, Some, IfOk, OnOk, length};
ghost use Rattle.roc_base.specs.declared.node.Shard.{Shard};
ghost use Rattle.roc_io.specs.Cause.{HasCause};
ghost use Rattle.roc_disk.specs.Over.{LeavesOnly};
ghost use Rattle.roc_journal.specs.Settled.{IsDurable};
ghost use Rattle.roc_journal.specs.Reading.{IsGateWithin};
ghost use Rattle.roc_server.specs.Ahead.{ServingFits};
ghost use Rattle.roc_step.specs.First.{first_server};
ghost use Rattle.roc_step.specs.Reads.{first_viewing};
ghost use Rattle.roc_step.specs.Restarts.{IsKeptFold};
ghost use Rattle.roc_kept.specs.Kept.{IsFrom, IsKeptOn, IsNewKeeper, StandsForSome};
ghost use Rattle.roc_kept.specs.Opening.{opening_failed, GivesSome, IsTakenTo, LeftByOpening, OpensAs, RefusesRightly};

use crate::taking::take_records;
use crate::{Keeper, KeptServer, OpenFault};
use roc_disk::{Disk, DiskDone};
use roc_journal::{Journal, ReadFault, Reader};
use roc_plan::Plan;
use roc_server::Server;
use std::alloc::Global;

// Reads a journal from its head on, and takes its records: the journal, with nothing behind its gate.
fn open_read<D: Disk>(
    alloc: Global,
    plan: &Plan,
    server: &mut Server,
    reader: Reader,
    disk: &mut D,
) -> Result<Journal, OpenFault>
    requires fits { ServingFits plan.now server.old }
    requires within { IsGateWithin reader }
    requires len { D.tells disk.old ≡ true → (name : List ℕ) → D.file disk.old ≡ Some name → reader.len ≡ length (D.content disk.old name) }
    ensures cause { HasCause (opening_failed result) (D.faults disk.old) (D.faults disk.new) }
    ensures told { D.tells disk.new ≡ true → D.tells disk.old ≡ true }
    ensures fits { ServingFits plan.now server.new }
    ensures shard { server.new.state.shard ≡ server.old.state.shard }
    ensures gives { (shard : Shard) → GivesSome plan.now shard server.old.state server.old.viewing → OnOk result (GivesSome plan.now shard server.new.state server.new.viewing) }
    ensures opened { D.tells disk.new ≡ true → (name : List ℕ) → IsDurable D.Disk disk.old name (D.content disk.old name) → (shard : Shard)
        → IsTakenTo plan.now shard (D.content disk.old name) [] reader server.old.state server.old.viewing
        → OpensAs D.Disk disk.new plan.now name reader.tag shard (D.content disk.old name) server.new.state server.new.viewing result }
    // A stop at any moment of the call leaves what it left before, or the same records.
    ensures any_moment { D.tells disk.new ≡ true → (name : List ℕ) → IsDurable D.Disk disk.old name (D.content disk.old name) → (shard : Shard)
        → IsTakenTo plan.now shard (D.content disk.old name) [] reader server.old.state server.old.viewing
        → LeavesOnly D.Disk disk.old disk.new name (LeftByOpening reader.tag (D.content disk.old name) (D.may_leave disk.old name)) }
{
    match take_records(alloc, plan, server, reader, disk) {
        Err(fault) => Err(fault),
        Ok(last) => match last.into_journal(disk) {
            None => Err(OpenFault::Disk),
            Some(journal) => Ok(journal),
        },
    }
}

// Opens the file of a name, and takes its records. An empty one is made a journal.
fn open_file<D: Disk>(
    alloc: Global,
    plan: &Plan,
    tag: [u8; 8],
    name: &str,
    server: &mut Server,
    disk: &mut D,
) -> Result<Journal, OpenFault>
    requires fits { ServingFits plan.now server.old }
    ensures cause { HasCause (opening_failed result) (D.faults disk.old) (D.faults disk.new) }
    ensures told { D.tells disk.new ≡ true → D.tells disk.old ≡ true }
    ensures fits { ServingFits plan.now server.new }
    ensures shard { server.new.state.shard ≡ server.old.state.shard }
    ensures gives { (shard : Shard) → GivesSome plan.now shard server.old.state server.old.viewing → OnOk result (GivesSome plan.now shard server.new.state server.new.viewing) }
    ensures opened { D.tells disk.new ≡ true → (shard : Shard) → IsKeptFold plan.now shard [] server.old.state server.old.viewing
        → OpensAs D.Disk disk.new plan.now name.now tag shard (D.content disk.old name.now) server.new.state server.new.viewing result }
    ensures any_moment { D.tells disk.new ≡ true → (shard : Shard) → IsKeptFold plan.now shard [] server.old.state server.old.viewing
        → LeavesOnly D.Disk disk.old disk.new name.now (LeftByOpening tag (D.content disk.old name.now) (D.may_leave disk.old name.now)) }
{
    match disk.open(name) {
        DiskDone::Failed => Err(OpenFault::Disk),
        DiskDone::Ok => open_named(alloc, plan, tag, server, disk),
    }
}

// The same of the open file.
fn open_named<D: Disk>(
    alloc: Global,
    plan: &Plan,
    tag: [u8; 8],
    server: &mut Server,
    disk: &mut D,
) -> Result<Journal, OpenFault>
    requires fits { ServingFits plan.now server.old }
    ensures cause { HasCause (opening_failed result) (D.faults disk.old) (D.faults disk.new) }
    ensures told { D.tells disk.new ≡ true → D.tells disk.old ≡ true }
    ensures fits { ServingFits plan.now server.new }
    ensures shard { server.new.state.shard ≡ server.old.state.shard }
    ensures gives { (shard : Shard) → GivesSome plan.now shard server.old.state server.old.viewing → OnOk result (GivesSome plan.now shard server.new.state server.new.viewing) }
    ensures opened { D.tells disk.new ≡ true → (name : List ℕ) → D.file disk.old ≡ Some name → (shard : Shard) → IsKeptFold plan.now shard [] server.old.state server.old.viewing
        → OpensAs D.Disk disk.new plan.now name tag shard (D.content disk.old name) server.new.state server.new.viewing result }
    ensures any_moment { D.tells disk.new ≡ true → (name : List ℕ) → D.file disk.old ≡ Some name → (shard : Shard) → IsKeptFold plan.now shard [] server.old.state server.old.viewing
        → LeavesOnly D.Disk disk.old disk.new name (LeftByOpening tag (D.content disk.old name) (D.may_leave disk.old name)) }
{
    match Reader::open(tag, disk) {
        Err(ReadFault::Journal(at)) => Err(OpenFault::Journal(at)),
        Err(ReadFault::Disk) => Err(OpenFault::Disk),
        Err(ReadFault::NoMemory) => Err(OpenFault::NoMemory),
        Ok(None) => match Journal::create(tag, disk) {
            None => Err(OpenFault::Disk),
            Some(journal) => Ok(journal),
        },
        Ok(Some(reader)) => open_read(alloc, plan, server, reader, disk),
    }
}

// The same with the first server of a shard, which starts again behind the records.
pub(crate) fn open_with<D: Disk>(
    alloc: Global,
    plan: &Plan,
    tag: [u8; 8],
    first: Server,
    name: &str,
    disk: &mut D,
) -> Result<KeptServer, OpenFault>
    requires fits { ServingFits plan.now first }
    requires first { first.state ≡ first_server plan.now first.state.shard }
    requires views { first.viewing ≡ first_viewing }
    ensures cause { HasCause (opening_failed result) (D.faults disk.old) (D.faults disk.new) }
    ensures told { D.tells disk.new ≡ true → D.tells disk.old ≡ true }
    ensures fits { IfOk result (λ kept. ServingFits plan.now kept.server) }
    ensures fresh { IfOk result (λ kept. IsNewKeeper tag kept.keeper × (kept.server.ahead ≡ None) × (kept.server.viewing.reads ≡ []) × (kept.server.state.shard ≡ first.state.shard)) }
    ensures stands { IfOk result (λ kept. StandsForSome plan.now first.state.shard kept.server.state kept.server.viewing) }
    ensures opened { D.tells disk.new ≡ true → IfOk result (λ kept. IsKeptOn D.Disk disk.new plan.now name.now tag kept.server.state kept.server.viewing kept.keeper
        × IsFrom plan.now tag first.state.shard (D.content disk.old name.now) kept.server.state kept.server.viewing) }
    ensures refused { D.tells disk.new ≡ true → RefusesRightly plan.now tag first.state.shard (D.content disk.old name.now) result }
    ensures any_moment { D.tells disk.new ≡ true → LeavesOnly D.Disk disk.old disk.new name.now (LeftByOpening tag (D.content disk.old name.now) (D.may_leave disk.old name.now)) }
{
    let mut server = first;
    match open_file(alloc, plan, tag, name, &mut server, disk) {
        Err(fault) => Err(fault),
        Ok(journal) => {
            server.restart();
            let keeper = Keeper {
                journal,
                tag,
                broken: false,
            };
            Ok(KeptServer {
                server,
                keeper: Some(keeper),
            })
        }
    }
}
