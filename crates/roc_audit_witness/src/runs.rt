//! The serial run of an order.
ghost use Rattle.std.specs.Prelude.{◌≡◌, ◌<◌, Some, IsTrue, find, length, map, IfOk, OnOk};
ghost use Rattle.std.specs.Option.{option_copied};
ghost use Rattle.roc_audit.specs.Witness.{submitted_call, submitted_calls};
ghost use Rattle.roc_audit_witness.specs.Inner.Tests.{RunsOne, answer_of, call_in, names_below, submits};
ghost use Rattle.roc_audit_witness.specs.Submissions.{NamesProcedures};
ghost use Rattle.roc_whole.specs.Run.{whole_run};
ghost use Rattle.roc_whole.specs.Serial.{procedure_at, serial_run};

use crate::submissions::submits;
use roc_audit::Entry;
use roc_base::{NoMemory, Nums, TxnId};
use roc_program::Workload;
use roc_rows::Rows;
use roc_whole::{run_whole, start_rows};
use std::alloc::Global;

/// A transaction with its reply.
#[derive(Drop)]
pub(crate) struct Replied {
    pub id: TxnId,
    pub reply: Nums,
}

/// The replies of the transactions of an order that run whole, one after another, from the start. What was not submitted does not run.
pub(crate) fn serial_replies(
    alloc: Global,
    workload: &Workload,
    history: &[Entry],
    order: &[TxnId],
) -> Result<Vec<Replied>, NoMemory>
    requires { NamesProcedures workload.now history.now }
    ensures { IfOk result (λ replies. map answer_of replies.items ≡ serial_run workload.now (submitted_calls history.now order.now)) }
{
    let mut rows = start_rows(alloc, workload)?;
    let mut replies = Vec::new(alloc);
    for id in order {
        run_one(alloc, workload, history, *id, &mut rows, &mut replies)?;
    }
    Ok(replies)
}

// Runs a transaction as it was first submitted, where it was.
fn run_one(
    alloc: Global,
    workload: &Workload,
    history: &[Entry],
    id: TxnId,
    rows: &mut Rows,
    replies: &mut Vec<Replied>,
) -> Result<(), NoMemory>
    requires { NamesProcedures workload.now history.now }
    ensures { OnOk result (RunsOne workload.now (submitted_call id history.now) rows.old.store replies.old.items rows.new.store replies.new.items) }
{
    match submission(history, id) {
        None => Ok(()),
        Some(entry) => run_entry(alloc, workload, entry, id, rows, replies),
    }
}

// Runs a transaction as an entry submits it, where it does.
fn run_entry(
    alloc: Global,
    workload: &Workload,
    entry: &Entry,
    id: TxnId,
    rows: &mut Rows,
    replies: &mut Vec<Replied>,
) -> Result<(), NoMemory>
    requires { IsTrue (names_below (length workload.now.procedures) entry.now) }
    ensures { OnOk result (RunsOne workload.now (call_in id entry.now) rows.old.store replies.old.items rows.new.store replies.new.items) }
{
    match entry {
        Entry::Submitted { id: _, proc, args } => {
            run_call(alloc, workload, id, *proc, args.as_slice(), rows, replies)
        }
        Entry::Answered { id: _, reply: _ } => Ok(()),
    }
}

fn run_call(
    alloc: Global,
    workload: &Workload,
    id: TxnId,
    proc: u16,
    args: &[i64],
    rows: &mut Rows,
    replies: &mut Vec<Replied>,
) -> Result<(), NoMemory>
    requires { proc < length workload.now.procedures }
    ensures { OnOk result (RunsOne workload.now (Some (record { id = id; procedure = proc; arguments = args.now })) rows.old.store replies.old.items rows.new.store replies.new.items) }
{
    let reply = reply_of(alloc, workload, rows, proc, args)?;
    replies.push(Replied { id, reply })?;
    Ok(())
}

// The first submission of a transaction.
fn submission(history: &[Entry], id: TxnId) -> Option<&Entry>
    ensures { option_copied result ≡ find (submits id) history.now }
{
    history.iter().find(|entry| submits(entry, id))
}

// The reply of a procedure that runs on the cells.
fn reply_of(
    alloc: Global,
    workload: &Workload,
    rows: &mut Rows,
    proc: u16,
    args: &[i64],
) -> Result<Nums, NoMemory>
    requires { proc < length workload.now.procedures }
    ensures store { IfOk result (λ reply. rows.new.store ≡ (whole_run (procedure_at workload.now proc) args.now rows.old.store).store) }
    ensures reply { IfOk result (λ reply. reply ≡ (whole_run (procedure_at workload.now proc) args.now rows.old.store).reply) }
{
    let mut reply = Nums::new(alloc);
    run_whole(alloc, workload, rows, proc, args, &mut reply)?;
    Ok(reply)
}
