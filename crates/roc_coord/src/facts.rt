//! The facts of a commit: what the startoks told of other transactions.
ghost use Rattle.std.specs.Prelude.{◌≡◌, ◌++◌, List, not, filter, position, IfOk, IfErr, OnOk};
ghost use Rattle.std.specs.List.{flat_map};
ghost use Rattle.roc_base.specs.TxnId.{is_txn, txn_lt};
ghost use Rattle.roc_depgraph.specs.declared.known.KnownList.{KnownList};
ghost use Rattle.roc_msg.specs.Facts.{is_fact_before, fitting, AreFacts};
ghost use Rattle.roc_msg.specs.InPlace.{in_place};
ghost use Rattle.roc_coord.specs.Starts.{gathered, all_facts};
ghost use Rattle.roc_coord.specs.Inner.FactPlace.{fact_place, IsFactAt, IsFactGap};

use crate::{TakenStart, Transaction};
use roc_base::{NoMemory, TxnId};
use roc_depgraph::KnownList;
use roc_msg::{Facts, MOST_FACT_EDGES, MOST_FACTS};
use std::alloc::Global;

// Where the first list stands that does not come before an id, where there is one.
fn first_behind(facts: &[KnownList], id: TxnId) -> Option<usize>
    ensures { result ≡ position (λ fact. not (txn_lt fact.of id)) facts.now }
{
    facts.iter().position(|fact| fact.of >= id)
}

// Where the first list stands that does not come before an id, or else their end.
fn place(facts: &[KnownList], id: TxnId) -> usize
    ensures { result ≡ fact_place id facts.now }
{
    first_behind(facts, id).unwrap_or(facts.len())
}

// Where the list of an id stands, or else where it would go.
fn find(facts: &[KnownList], id: TxnId) -> Result<usize, usize>
    requires { AreFacts facts.now }
    ensures found { IfOk result (IsFactAt id facts.now) }
    ensures absent { IfErr result (IsFactGap id facts.now) }
{
    let at = place(facts, id);
    if at >= facts.len() {
        return Err(at);
    }
    if facts[at].of == id { Ok(at) } else { Err(at) }
}

// Puts a list into its place. What stood there goes.
fn put(facts: &mut Vec<KnownList>, fact: KnownList) -> Result<(), NoMemory>
    requires { AreFacts facts.old.items }
    ensures { OnOk result (facts.new.items ≡ in_place is_fact_before fact facts.old.items) }
{
    match find(facts, fact.of) {
        Ok(at) => facts[at] = fact,
        Err(at) => facts.insert(at, fact)?,
    }
    Ok(())
}

// Gathers what one startok told, before what was gathered of those behind it.
fn gather(told: &[KnownList], facts: &mut Vec<KnownList>) -> Result<(), NoMemory>
    requires { AreFacts facts.old.items }
    ensures items { OnOk result ((rest : List KnownList) → facts.old.items ≡ gathered rest → facts.new.items ≡ gathered (told.now ++ rest)) }
    ensures rising { OnOk result (AreFacts facts.new.items) }
{
    for at in (0..told.len()).rev() {
        put(facts, told[at].clone()?)?;
    }
    Ok(())
}

// What the startoks told, of two lists of one transaction the first.
fn gathered(alloc: Global, startoks: &[TakenStart]) -> Result<Vec<KnownList>, NoMemory>
    ensures items { IfOk result (λ facts. facts.items ≡ gathered (flat_map (λ ok. ok.facts) startoks.now)) }
    ensures rising { IfOk result (λ facts. AreFacts facts.items) }
{
    let mut facts = Vec::new(alloc);
    for at in (0..startoks.len()).rev() {
        gather(startoks[at].facts.as_slice(), &mut facts)?;
    }
    Ok(facts)
}

// As much of the lists of others as travels along.
fn fitting_others(alloc: Global, own: TxnId, gathered: &[KnownList]) -> Result<Facts, NoMemory>
    requires { AreFacts gathered.now }
    ensures { IfOk result (λ facts. facts ≡ fitting (filter (λ fact. not (is_txn fact.of own)) gathered.now)) }
{
    let mut facts = Facts::new(alloc);
    let mut room = MOST_FACTS;
    let mut left = MOST_FACT_EDGES;
    for fact in gathered {
        if fact.of == own {
            continue;
        }
        if room == 0 {
            return Ok(facts);
        }
        if fact.edges.len() > left {
            return Ok(facts);
        }
        room -= 1;
        left -= fact.edges.len();
        facts.push(fact.clone()?)?;
    }
    Ok(facts)
}

/// What the startoks told of other transactions, as much as travels along.
pub(crate) fn all_facts(alloc: Global, x: &Transaction) -> Result<Facts, NoMemory>
    ensures { IfOk result (λ facts. facts ≡ all_facts x.now) }
{
    let facts = gathered(alloc, x.startoks.as_slice())?;
    fitting_others(alloc, x.id, &facts)
}
