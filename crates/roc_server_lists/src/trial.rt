//! A step that is tried: what of it changes in place stands in the table, and the rest here until it is kept.
ghost use Rattle.std.specs.Prelude.{◌≡◌};
ghost use Rattle.roc_server_lists.specs.ListsNow.{asks_of, newly_of, over_of};
ghost use Rattle.roc_server_lists.specs.declared.parts.ListParts.{ListParts as Parts};
ghost use Rattle.roc_server_lists.specs.Inner.Trials.{asks, lists_now, newly, over_by};

use roc_await::{Asker, OpenFetch};
use roc_base::TxnId;
use roc_depgraph::KnownList;
use roc_sequence::Sequence;
use roc_server_taken::Marks;

// What is missing, the components that become decided, as they are taken, and the transactions in them, one after another.
#[derive(Drop)]
pub(crate) struct Found {
    pub asks: Vec<OpenFetch>,
    pub components: Vec<Sequence<TxnId>>,
    pub ids: Vec<TxnId>,
}

// Lists that are taught: the table has learnt them. What was found of them, and what is over then, rising.
#[derive(Drop)]
pub(crate) struct Lesson {
    pub news: Vec<KnownList>,
    pub found: Found,
    pub over: Vec<TxnId>,
}

// A watermark that is heard, and what is over by it, rising.
#[derive(Drop)]
pub(crate) struct Heard {
    pub marks: Marks,
    pub over: Vec<TxnId>,
}

// What comes of a settled transaction: the watermarks; the transaction itself, where its watermark ends it, and whether its list is
// known; the components that become decided, and the transactions in them, one after another; and what is over then, rising.
#[derive(Drop)]
pub(crate) struct Settling {
    pub marks: Marks,
    pub settled: Vec<TxnId>,
    pub is_known: bool,
    pub components: Vec<Sequence<TxnId>>,
    pub ids: Vec<TxnId>,
    pub over: Vec<TxnId>,
}

// What is to change.
#[derive(Drop)]
pub(crate) enum Trial {
    // A shard waits for a list, and there is room for it.
    Asker(Asker),
    Lists(Lesson),
    Marks(Heard),
    Settled(Settling),
}

// What is newly decided by it, where one is tried.
pub(crate) fn newly_of(trial: &Option<Trial>) -> &[TxnId]
    ensures { (k : Parts) → result.now ≡ newly_of (lists_now k trial.now).tried }
{
    match trial {
        Some(trial) => newly(trial),
        None => &[],
    }
}

fn newly(trial: &Trial) -> &[TxnId]
    ensures { result.now ≡ newly trial.now }
{
    match trial {
        Trial::Lists(lesson) => lesson.found.ids.as_slice(),
        Trial::Settled(settling) => settling.ids.as_slice(),
        Trial::Asker(_) => &[],
        Trial::Marks(_) => &[],
    }
}

// What it asks for.
pub(crate) fn asks_of(trial: &Option<Trial>) -> &[OpenFetch]
    ensures { (k : Parts) → result.now ≡ asks_of (lists_now k trial.now).tried }
{
    match trial {
        Some(trial) => asks(trial),
        None => &[],
    }
}

fn asks(trial: &Trial) -> &[OpenFetch]
    ensures { result.now ≡ asks trial.now }
{
    match trial {
        Trial::Lists(lesson) => lesson.found.asks.as_slice(),
        Trial::Asker(_) => &[],
        Trial::Marks(_) => &[],
        Trial::Settled(_) => &[],
    }
}

// What it forgets.
pub(crate) fn over_of(trial: &Option<Trial>) -> &[TxnId]
    ensures { (k : Parts) → result.now ≡ over_of (lists_now k trial.now).tried }
{
    match trial {
        Some(trial) => over(trial),
        None => &[],
    }
}

fn over(trial: &Trial) -> &[TxnId]
    ensures { result.now ≡ over_by trial.now }
{
    match trial {
        Trial::Lists(lesson) => lesson.over.as_slice(),
        Trial::Marks(heard) => heard.over.as_slice(),
        Trial::Settled(settling) => settling.over.as_slice(),
        Trial::Asker(_) => &[],
    }
}
