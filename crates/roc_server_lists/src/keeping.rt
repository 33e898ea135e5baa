//! What was tried is kept, or taken back: neither takes memory.
ghost use Rattle.std.specs.Prelude.{◌≡◌, ◌≢◌, ◌<◌, ◌≤◌, [], length, not, filter, if◌then◌else◌};
ghost use Rattle.std.specs.List.{AllByRecursion};
ghost use Rattle.std.specs.List.Sorted.{IsStrictlySortedBy};
ghost use Rattle.roc_base.specs.TxnId.{is_txn, txn_cmp};
ghost use Rattle.roc_sequence.specs.Places.{is_listed, IsListed};
ghost use Rattle.roc_step.specs.New.{AreAllNew};
ghost use Rattle.roc_step.specs.Waits.{without_asked};
ghost use Rattle.roc_server_lists.specs.declared.trial.Trial.TheVariants.{Asker as AskerComes, Lists as ListsCome, Marks as MarksRise, Settled as SettledComes};
ghost use Rattle.roc_server_lists.specs.Inner.Keeping.{Forgets, IsOverOf, KeepsFound};
ghost use Rattle.roc_server_lists.specs.Inner.Parts.{kept_in, AreConsistent};
ghost use Rattle.roc_server_lists.specs.Inner.Trials.{after, before_trial, links_settled, unlearnt, AreListsTried, AreMarksTried, HasRoomToKeep, IsSettledTried, IsTrial};

use crate::parts::ListParts;
use crate::trial::{Found, Heard, Lesson, Settling, Trial};
use roc_await::{Asker, Waits};
use roc_base::TxnId;
use roc_depgraph::KnownList;
use roc_server_news::wait_for;
use roc_server_table::ListTable;

// What was tried is kept.
pub(crate) fn keep(parts: &mut ListParts, trial: Trial)
    requires { IsTrial parts.old trial }
    ensures kept { kept_in parts.new ≡ after parts.old trial }
    ensures sound { AreConsistent parts.new }
{
    match trial {
        Trial::Asker(asker) => keep_asker(parts, asker),
        Trial::Lists(lesson) => keep_lists(parts, lesson),
        Trial::Marks(heard) => keep_marks(parts, heard),
        Trial::Settled(settling) => keep_settled(parts, settling),
    }
}

// What was tried is taken back.
pub(crate) fn take_back(parts: &mut ListParts, trial: Trial)
    requires { IsTrial parts.old trial }
    ensures kept { kept_in parts.new ≡ kept_in (before_trial parts.old trial) }
    ensures decided { parts.new.table.decided ≡ parts.old.table.decided }
    ensures sound { AreConsistent parts.new }
{
    match trial {
        Trial::Asker(_) => {}
        Trial::Lists(lesson) => unlearn(parts, lesson),
        Trial::Marks(_) => {}
        Trial::Settled(_) => {}
    }
}

// The shard waits.
fn keep_asker(parts: &mut ListParts, asker: Asker)
    requires sound { AreConsistent parts.old }
    requires room { 0 < parts.old.waits.spare }
    ensures kept { kept_in parts.new ≡ after parts.old (AskerComes asker) }
    ensures sound { AreConsistent parts.new }
{
    parts.waits.keep_asker(asker).unwrap();
}

// What was found of the lists is kept, and what is over then is forgotten.
fn keep_lists(parts: &mut ListParts, lesson: Lesson)
    requires { AreListsTried parts.old lesson }
    ensures kept { kept_in parts.new ≡ after parts.old (ListsCome lesson) }
    ensures sound { AreConsistent parts.new }
{
    let Lesson { news, found, over } = lesson;
    keep_found(parts, &news, found);
    forget_if_over(parts, &over);
}

// Keeps what was found of these lists. There is room for it.
fn keep_found(parts: &mut ListParts, news: &[KnownList], found: Found)
    requires room { HasRoomToKeep parts.old found }
    requires decided { AreAllNew (IsListed is_txn parts.old.table.decided) parts.old.table.links found.ids.items }
    requires some { AllByRecursion (λ c. c ≢ []) found.components.items }
    ensures { KeepsFound parts.old parts.new news.now found }
{
    let Found {
        asks,
        components,
        ids,
    } = found;
    wait_for(&mut parts.waits, news, &asks).unwrap();
    parts.table.decide(&ids);
    parts.taken.add(&parts.marks, components);
}

// The watermarks are heard, and what is over by them is forgotten.
fn keep_marks(parts: &mut ListParts, heard: Heard)
    requires { AreMarksTried parts.old heard }
    ensures kept { kept_in parts.new ≡ after parts.old (MarksRise heard) }
    ensures sound { AreConsistent parts.new }
{
    let Heard { marks, over } = heard;
    parts.marks = marks;
    forget_ended(parts, &over);
}

// What was found of a settled transaction is kept, and what is over then is forgotten.
fn keep_settled(parts: &mut ListParts, settling: Settling)
    requires { IsSettledTried parts.old settling }
    ensures kept { kept_in parts.new ≡ after parts.old (SettledComes settling) }
    ensures sound { AreConsistent parts.new }
{
    let Settling {
        marks,
        settled,
        is_known,
        components,
        ids,
        over,
    } = settling;
    parts.marks = marks;
    settle_all(&mut parts.table, &settled);
    parts.table.decide(&ids);
    parts.taken.add(&parts.marks, components);
    drop_unless(&mut parts.waits, is_known, &settled);
    forget_ended(parts, &over);
}

// The entries that name these are done from now on.
fn settle_all(table: &mut ListTable, settled: &[TxnId])
    requires { length settled.now ≤ 1 }
    ensures known { table.new.known ≡ table.old.known }
    ensures links { table.new.links ≡ links_settled table.old.links settled.now }
    ensures decided { table.new.decided ≡ table.old.decided }
{
    match settled.first() {
        Some(id) => table.settle(*id),
        None => {}
    }
}

// These, which rise, are waited for no longer, unless their list is known.
fn drop_unless(waits: &mut Waits, is_known: bool, settled: &[TxnId])
    requires { IsStrictlySortedBy txn_cmp settled.now }
    ensures waiting { waits.new.waiting ≡ (if is_known then waits.old.waiting else without_asked (is_listed is_txn settled.now) waits.old.waiting) }
    ensures fetches { waits.new.fetches ≡ (if is_known then waits.old.fetches else filter (λ a. not (is_listed is_txn settled.now a.id)) waits.old.fetches) }
{
    if !is_known {
        waits.drop_asked(settled);
    }
}

// Forgets what is over, where something is.
fn forget_if_over(parts: &mut ListParts, over: &[TxnId])
    requires { IsOverOf parts.old over.now }
    ensures { Forgets parts.old parts.new }
{
    if over.is_empty() {
        return;
    }
    forget(parts, over);
}

// The same where watermarks rose: components that stand under what they ended, and are not over, stand elsewhere then.
fn forget_ended(parts: &mut ListParts, over: &[TxnId])
    requires { IsOverOf parts.old over.now }
    ensures { Forgets parts.old parts.new }
{
    if over.is_empty() {
        parts.taken.forget(&parts.marks);
        return;
    }
    forget(parts, over);
}

// Forgets what is over.
fn forget(parts: &mut ListParts, over: &[TxnId])
    requires { IsOverOf parts.old over.now }
    ensures { Forgets parts.old parts.new }
{
    parts.waits.drop_asked(over);
    parts.taken.forget(&parts.marks);
    parts.table.forget(over);
}

// The lists are as they were before.
fn unlearn(parts: &mut ListParts, lesson: Lesson)
    requires { AreListsTried parts.old lesson }
    ensures kept { kept_in parts.new ≡ kept_in (unlearnt parts.old lesson) }
    ensures decided { parts.new.table.decided ≡ parts.old.table.decided }
    ensures sound { AreConsistent parts.new }
{
    let Lesson {
        news,
        found: _,
        over: _,
    } = lesson;
    parts.table.unlearn(&news);
}
