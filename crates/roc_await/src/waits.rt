//! Who waits for which list.
ghost use Rattle.std.specs.Prelude.{◌≡◌, ◌+◌, ◌<◌, ◌≤◌, [], length, not, filter, vec_len, vec_capacity, IsOk, OnOk, OnErr};
ghost use Rattle.std.specs.List.Sorted.{IsStrictlySortedBy};
ghost use Rattle.roc_base.specs.TxnId.{is_txn, txn_cmp, txn_lt};
ghost use Rattle.roc_sequence.specs.Places.{is_listed};
ghost use Rattle.roc_step.specs.Waits.{askers_of, is_asked_before, is_asker_before, none_waiting, shard_asked, with_asked, with_asker, without_asked, without_askers_of, without_fetch_of, AreInOrder};
ghost use Rattle.roc_await.specs.Inner.Apart.{is_apart};

use roc_base::{NoMemory, Shard, TxnId};
use roc_depgraph::is_among_rising;
use roc_step::{Asker, OpenFetch};
use std::alloc::Global;
use std::marker::Model;

/// What a server waits for, and who waits for it.
#[derive(Drop)]
pub struct Waits {
    asked: Vec<OpenFetch>,
    askers: Vec<Asker>,
    // The open ones: of what was asked for, what was not taken since.
    fetches: Vec<OpenFetch>,
}

impl Model for Waits {
    ghost use Rattle.std.specs.Prelude.{◌-◌, min, vec_len, vec_capacity};
    ghost use Rattle.roc_step.specs.Waits.{AreKept, Awaited};

    ghost Value = { Awaited };

    ghost view = { λ w. record {
      waiting = record { asked = w.asked.items; askers = w.askers.items };
      fetches = w.fetches.items;
      spare = min (vec_capacity w.asked - vec_len w.asked) (min (vec_capacity w.askers - vec_len w.askers) (vec_capacity w.fetches - vec_len w.fetches));
    } };

    ghost invariant = { λ w. AreKept w.asked.items w.askers.items w.fetches.items };
}

impl Waits {
    /// Nothing was asked for, and nobody has asked. Takes no memory.
    pub fn new(alloc: Global) -> Waits
        ensures waiting { result.waiting ≡ none_waiting }
        ensures fetches { result.fetches ≡ [] }
    {
        Waits {
            asked: Vec::new(alloc),
            askers: Vec::new(alloc),
            fetches: Vec::new(alloc),
        }
    }

    /// The shard that was asked for the list of a transaction, whether the list was taken since or not. Takes no memory.
    pub fn asked(&self, id: TxnId) -> Option<Shard>
        ensures { result ≡ shard_asked id self.now.waiting.asked }
    {
        self.asked.iter().find(|a| a.id == id).map(|a| a.at)
    }

    /// Who asked for the list of a transaction, by shard rising. Takes no memory.
    pub fn askers(&self, id: TxnId) -> &[Asker]
        ensures { result.now ≡ askers_of id self.now.waiting.askers }
    {
        askers_of(&self.askers, id)
    }

    /// What was asked for and not taken since, by id rising. Takes no memory.
    pub fn open(&self) -> &[OpenFetch]
        ensures { result.now ≡ self.now.fetches }
    {
        self.fetches.as_slice()
    }

    /// One more is asked for, and open. `NoMemory` leaves all as it was, and comes only where `spare` is 0.
    pub fn ask(&mut self, asked: OpenFetch) -> Result<(), NoMemory>
        ensures waiting { OnOk result (self.new.waiting ≡ record self.old.waiting { asked = with_asked asked self.old.waiting.asked }) }
        ensures fetches { OnOk result (self.new.fetches ≡ with_asked asked self.old.fetches) }
        ensures err { OnErr result ((self.new.waiting ≡ self.old.waiting) × (self.new.fetches ≡ self.old.fetches)) }
        ensures succeeds { 0 < self.old.spare → IsOk result }
        ensures spare { self.old.spare ≤ self.new.spare + 1 }
    {
        self.reserve(1)?;
        put_asked(&mut self.asked, asked);
        put_asked(&mut self.fetches, asked);
        Ok(())
    }

    /// One more has asked; it is kept once. `NoMemory` leaves all as it was, and comes only where `spare` is 0.
    pub fn keep_asker(&mut self, asker: Asker) -> Result<(), NoMemory>
        ensures waiting { OnOk result (self.new.waiting ≡ record self.old.waiting { askers = with_asker asker self.old.waiting.askers }) }
        ensures fetches { self.new.fetches ≡ self.old.fetches }
        ensures err { OnErr result (self.new.waiting ≡ self.old.waiting) }
        ensures succeeds { 0 < self.old.spare → IsOk result }
        ensures spare { self.old.spare ≤ self.new.spare + 1 }
    {
        self.reserve(1)?;
        put_asker(&mut self.askers, asker);
        Ok(())
    }

    /// The list of a transaction is learnt: it is open no longer. Takes no memory.
    pub fn took(&mut self, id: TxnId)
        ensures waiting { self.new.waiting ≡ self.old.waiting }
        ensures fetches { self.new.fetches ≡ without_fetch_of id self.old.fetches }
        ensures spare { self.old.spare ≤ self.new.spare }
    {
        take_out_fetch(&mut self.fetches, id);
    }

    /// These transactions, which rise, were not asked for. Takes no memory.
    pub fn drop_asked(&mut self, ids: &[TxnId])
        requires { IsStrictlySortedBy txn_cmp ids.now }
        ensures waiting { self.new.waiting ≡ without_asked (is_listed is_txn ids.now) self.old.waiting }
        ensures fetches { self.new.fetches ≡ filter (λ a. not (is_listed is_txn ids.now a.id)) self.old.fetches }
        ensures spare { self.old.spare ≤ self.new.spare }
    {
        keep_others(&mut self.asked, ids);
        keep_others(&mut self.fetches, ids);
    }

    /// Those who asked for the list of a transaction wait no longer. Takes no memory.
    pub fn drop_askers(&mut self, id: TxnId)
        ensures waiting { self.new.waiting ≡ record self.old.waiting { askers = without_askers_of id self.old.waiting.askers } }
        ensures fetches { self.new.fetches ≡ self.old.fetches }
        ensures spare { self.old.spare ≤ self.new.spare }
    {
        take_out_askers(&mut self.askers, id);
    }

    /// How many more calls of `ask` or `keep_asker` cannot fail. Takes no memory.
    pub fn spare(&self) -> usize
        ensures { result ≡ self.now.spare }
    {
        let asked = self.asked.capacity() - self.asked.len();
        let askers = self.askers.capacity() - self.askers.len();
        let fetches = self.fetches.capacity() - self.fetches.len();
        asked.min(askers.min(fetches))
    }

    /// Takes memory ahead, so that this many more calls of `ask` or `keep_asker` cannot fail. What is held stays, whether
    /// there is memory or not.
    pub fn reserve(&mut self, more: usize) -> Result<(), NoMemory>
        ensures waiting { self.new.waiting ≡ self.old.waiting }
        ensures fetches { self.new.fetches ≡ self.old.fetches }
        ensures ok { OnOk result (more ≤ self.new.spare) }
        ensures succeeds { more ≤ self.old.spare → IsOk result }
        ensures spare { self.old.spare ≤ self.new.spare }
    {
        self.asked.reserve(more)?;
        self.askers.reserve(more)?;
        self.fetches.reserve(more)?;
        Ok(())
    }
}

// Those who asked for the list of one transaction. They stand side by side.
fn askers_of(askers: &[Asker], id: TxnId) -> &[Asker]
    requires { AreInOrder is_asker_before askers.now }
    ensures { result.now ≡ askers_of id askers.now }
{
    let from = count_below(askers, id);
    let len = count_same(askers, id);
    &askers[from..][..len]
}

// How many asked for lists of lower ids.
fn count_below(askers: &[Asker], id: TxnId) -> usize
    ensures count { result ≡ length (filter (λ a. txn_lt a.id id) askers.now) }
    ensures bound { result ≤ length askers.now }
{
    askers.iter().filter(|a| a.id < id).count()
}

// How many asked for the list of a transaction.
fn count_same(askers: &[Asker], id: TxnId) -> usize
    ensures { result ≡ length (filter (λ a. is_txn a.id id) askers.now) }
{
    askers.iter().filter(|a| a.id == id).count()
}

// Puts one into its place among fetches that have room for one more, over what stood there.
fn put_asked(all: &mut Vec<OpenFetch>, asked: OpenFetch)
    requires order { AreInOrder is_asked_before all.old.items }
    requires room { vec_len all.old < vec_capacity all.old }
    ensures items { all.new.items ≡ with_asked asked all.old.items }
    ensures len { vec_len all.new ≤ vec_len all.old + 1 }
    ensures capacity { vec_capacity all.old ≤ vec_capacity all.new }
{
    let at = count_asked_before(all, asked);
    keep_other_asked(all, asked);
    all.insert(at, asked).unwrap();
}

// How many of them come before one.
fn count_asked_before(all: &[OpenFetch], asked: OpenFetch) -> usize
    ensures { result ≡ length (filter (λ a. is_asked_before a asked) all.now) }
{
    all.iter().filter(|a| a.id < asked.id).count()
}

// Those that come before one or behind it stay.
fn keep_other_asked(all: &mut Vec<OpenFetch>, asked: OpenFetch)
    ensures items { all.new.items ≡ filter (is_apart is_asked_before asked) all.old.items }
    ensures len { vec_len all.new ≤ vec_len all.old }
    ensures capacity { vec_capacity all.new ≡ vec_capacity all.old }
{
    all.retain(|a| a.id < asked.id || asked.id < a.id);
}

// Puts one into his place among those who asked, where there is room for one more.
fn put_asker(all: &mut Vec<Asker>, asker: Asker)
    requires order { AreInOrder is_asker_before all.old.items }
    requires room { vec_len all.old < vec_capacity all.old }
    ensures items { all.new.items ≡ with_asker asker all.old.items }
    ensures len { vec_len all.new ≤ vec_len all.old + 1 }
    ensures capacity { vec_capacity all.old ≤ vec_capacity all.new }
{
    let at = count_askers_before(all, asker);
    keep_other_askers(all, asker);
    all.insert(at, asker).unwrap();
}

// How many of them come before one.
fn count_askers_before(all: &[Asker], asker: Asker) -> usize
    ensures { result ≡ length (filter (λ a. is_asker_before a asker) all.now) }
{
    all.iter().filter(|a| is_before(a, &asker)).count()
}

// Those who come before one or behind him stay.
fn keep_other_askers(all: &mut Vec<Asker>, asker: Asker)
    ensures items { all.new.items ≡ filter (is_apart is_asker_before asker) all.old.items }
    ensures len { vec_len all.new ≤ vec_len all.old }
    ensures capacity { vec_capacity all.new ≡ vec_capacity all.old }
{
    all.retain(|a| is_before(a, &asker) || is_before(&asker, a));
}

// Whether one stands before another, by id and then by shard.
fn is_before(a: &Asker, b: &Asker) -> bool
    ensures { result ≡ is_asker_before a.now b.now }
{
    a.id < b.id || (a.id == b.id && a.shard < b.shard)
}

// Those who asked for other lists stay.
fn take_out_askers(askers: &mut Vec<Asker>, id: TxnId)
    ensures items { askers.new.items ≡ without_askers_of id askers.old.items }
    ensures len { vec_len askers.new ≤ vec_len askers.old }
    ensures capacity { vec_capacity askers.new ≡ vec_capacity askers.old }
{
    askers.retain(|a| a.id != id);
}

// What was asked for of other transactions than these, which rise, stays.
fn keep_others(all: &mut Vec<OpenFetch>, ids: &[TxnId])
    requires { IsStrictlySortedBy txn_cmp ids.now }
    ensures items { all.new.items ≡ filter (λ a. not (is_listed is_txn ids.now a.id)) all.old.items }
    ensures len { vec_len all.new ≤ vec_len all.old }
    ensures capacity { vec_capacity all.new ≡ vec_capacity all.old }
{
    all.retain(|a| !is_among_rising(ids, a.id));
}

// The fetches of other transactions stay.
fn take_out_fetch(fetches: &mut Vec<OpenFetch>, id: TxnId)
    ensures items { fetches.new.items ≡ without_fetch_of id fetches.old.items }
    ensures len { vec_len fetches.new ≤ vec_len fetches.old }
    ensures capacity { vec_capacity fetches.new ≡ vec_capacity fetches.old }
{
    fetches.retain(|a| a.id != id);
}
