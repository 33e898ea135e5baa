//! The laws of the log machine. Each is the contract of a function that does nothing.
ghost use Rattle.std.specs.Prelude.{◌≡◌, ◌≢◌, ◌↔◌, ℤ, ℕ, Bool, List, IsTrue, ◌⊎◌};
ghost use Rattle.roc_sequence.specs.Places.{IsListed, IsListedBefore};
ghost use Rattle.roc_base.specs.declared.id.TxnId.{TxnId};
ghost use Rattle.roc_base.specs.TxnId.{is_txn};
ghost use Rattle.roc_rows.specs.declared.cell.Cell.{Cell};
ghost use Rattle.roc_rows.specs.Store.{Store, read};
ghost use Rattle.roc_law_orders.specs.Behaviour.{TxnGroup, is_txn_group, DoesSame};
ghost use Rattle.roc_law_orders.specs.Runs.{Stage, inputs_at, after_group, stage_behind, Conflict, account};
ghost use Rattle.roc_law_orders.specs.Orders.{IsRealRun, one_by_one, Follows};
ghost use Rattle.roc_law_log.specs.Scheme.{Scheme, IsSoundScheme};
ghost use Rattle.roc_depgraph.specs.declared.known.KnownList.{KnownList};
ghost use Rattle.roc_depgraph.specs.Deps.{Precedes};
ghost use Rattle.roc_depgraph.specs.Reach.{Reaches};
ghost use Rattle.roc_component.specs.Components.{Mates, among, IsComponentOrder, IsComponentOrderOf};
ghost use Rattle.roc_law_log.specs.Counting.{counting};
ghost use Rattle.roc_law_log.specs.Edges.{AreEdges};
ghost use Rattle.roc_law_log.specs.Log.{Log, PrecedesTxn, PrecedesTxnNow, shard_at, HasGroup, IsDecidedThroughout};
ghost use Rattle.roc_law_log.specs.Settled.{IsSettled};
ghost use Rattle.roc_law_log.specs.Kept.{KeepsRan};
ghost use Rattle.roc_law_log.specs.Clean.{IsClean, writes_to};
ghost use Rattle.roc_law_log.specs.Taking.{RespectsPrecedence};
ghost use Rattle.roc_law_log.specs.Steps.{LogStep, LogSteps, IsReachedLog, IsWaived, new_in};
ghost use Rattle.roc_law_log.specs.Invariants.{LogInvariants, LogGrows};

use roc_law_orders::laws::{
    counter_is_lawful, groups_stand_one_by_one, last_values_are_serial, runs_are_serial, runs_stay,
};

/// What holds of each log that may come about, and is kept by each step.
pub fn logs_keep_invariants()
    ensures reached { (S : Scheme) (start : Store) (log : Log) → IsSoundScheme S → IsReachedLog S start log → LogInvariants S start log }
    ensures kept { (S : Scheme) (start : Store) (log later : Log) → IsSoundScheme S → LogInvariants S start log → LogStep S start log later → LogInvariants S start later }
{
    groups_stand_one_by_one();
    runs_stay();
}

/// What stays as a log grows.
pub fn logs_grow()
    ensures { (S : Scheme) (start : Store) (log later : Log) → IsSoundScheme S → LogInvariants S start log → LogSteps S start log later → LogGrows S start log later }
{
    groups_stand_one_by_one();
    runs_stay();
}

/// Groups that conflict are of one class and on one shard.
pub fn conflicts_are_on_one_shard()
    ensures class { (S : Scheme) (start : Store) (log : Log) → IsSoundScheme S → LogInvariants S start log
        → (q r : TxnGroup) → Conflict S.behaviour start log.past.ran q r → S.is_immediate q ≡ S.is_immediate r }
    ensures shard { (S : Scheme) (start : Store) (log : Log) → IsSoundScheme S → LogInvariants S start log
        → (q r : TxnGroup) → Conflict S.behaviour start log.past.ran q r → shard_at S start log.past.ran q ≡ shard_at S start log.past.ran r }
{
    runs_stay();
}

/// Every log meets what the law about orders asks for.
pub fn logs_follow()
    ensures real { (S : Scheme) (start : Store) (log : Log) → IsSoundScheme S → LogInvariants S start log → IsRealRun S.behaviour log.past.ran }
    ensures follows { (S : Scheme) (start : Store) (log : Log) → IsSoundScheme S → LogInvariants S start log → Follows S.behaviour start log.past.ran log.order }
{
    runs_stay();
}

/// Each group that ran of a decided transaction saw and did what it does where the decided transactions run one after another, in their
/// order.
pub fn executions_are_serial()
    ensures { (S : Scheme) (start : Store) (log : Log) → IsSoundScheme S → IsReachedLog S start log
        → (r : TxnGroup) → IsListed is_txn_group log.past.ran r → IsListed is_txn log.order r.txn
        → account S.behaviour start (one_by_one S.behaviour log.order) r ≡ account S.behaviour start log.past.ran r }
{
    logs_keep_invariants();
    logs_follow();
    runs_are_serial();
}

/// Any list of the decided transactions that keeps what ran meets what the law about orders asks for, and the one order is such a list. So
/// in any of them, one after another, they do what they did.
pub fn lists_that_keep_follow()
    ensures follows { (S : Scheme) (start : Store) (log : Log) → IsSoundScheme S → LogInvariants S start log
        → (O : List TxnId) → KeepsRan S start log O → Follows S.behaviour start log.past.ran O }
    ensures order { (S : Scheme) (start : Store) (log : Log) → IsSoundScheme S → LogInvariants S start log → KeepsRan S start log log.order }
    ensures same { (S : Scheme) (start : Store) (log : Log) → IsSoundScheme S → LogInvariants S start log
        → (O : List TxnId) → KeepsRan S start log O → (r : TxnGroup) → IsListed is_txn_group log.past.ran r → IsListed is_txn O r.txn
        → account S.behaviour start (one_by_one S.behaviour O) r ≡ account S.behaviour start log.past.ran r }
{
    logs_follow();
    runs_are_serial();
}

/// A cell that nobody writes for a while holds what a serial run leaves in it: if a cell is clean at two moments, and as many uses as may
/// write it ran until the one as until the other, then at the later one it holds what it holds where the transactions that were decided
/// until any moment between run one after another, in their order, or in any other that keeps what ran.
pub fn steady_cells_are_serial()
    ensures order { (S : Scheme) (start : Store) (log between later : Log) → IsSoundScheme S → LogInvariants S start log
        → LogSteps S start log between → LogSteps S start between later
        → (x : Cell) → IsClean S start log x → IsClean S start later x → writes_to S start log x ≡ writes_to S start later x
        → read (stage_behind S.behaviour start (one_by_one S.behaviour between.order)).store x ≡ read (stage_behind S.behaviour start later.past.ran).store x }
    ensures kept { (S : Scheme) (start : Store) (log between later : Log) → IsSoundScheme S → LogInvariants S start log
        → LogSteps S start log between → LogSteps S start between later
        → (x : Cell) → IsClean S start log x → IsClean S start later x → writes_to S start log x ≡ writes_to S start later x
        → (O : List TxnId) → KeepsRan S start between O
        → read (stage_behind S.behaviour start (one_by_one S.behaviour O)).store x ≡ read (stage_behind S.behaviour start later.past.ran).store x }
{
    groups_stand_one_by_one();
    runs_stay();
    logs_grow();
    logs_follow();
    lists_that_keep_follow();
    last_values_are_serial();
}

/// What comes before a transaction that is decided anywhere, and its component, is decided too, and fixed: nothing new comes before it, nor
/// into its component.
pub fn decided_is_fixed()
    ensures before { (S : Scheme) (start : Store) (log : Log) → LogInvariants S start log
        → (u t : TxnId) → IsListed is_txn log.order t → Reaches (PrecedesTxn S start log.past) u t → IsListed is_txn log.order u }
    ensures component { (S : Scheme) (start : Store) (log : Log) → LogInvariants S start log
        → (t u : TxnId) → IsListed is_txn log.order t → Mates (PrecedesTxn S start log.past) t u → IsListed is_txn log.order u }
    ensures precedes { (S : Scheme) (start : Store) (log : Log) → IsSoundScheme S → LogInvariants S start log → (later : Log) → LogSteps S start log later
        → (u t : TxnId) → IsListed is_txn log.order t → PrecedesTxn S start log.past u t ↔ PrecedesTxn S start later.past u t }
    ensures precedes_now { (S : Scheme) (start : Store) (log : Log) → IsSoundScheme S → LogInvariants S start log → (later : Log) → LogSteps S start log later
        → (u t : TxnId) → IsListed is_txn log.order t → PrecedesTxnNow S start log.past u t ↔ PrecedesTxnNow S start later.past u t }
    ensures reaches { (S : Scheme) (start : Store) (log : Log) → IsSoundScheme S → LogInvariants S start log → (later : Log) → LogSteps S start log later
        → (u t : TxnId) → IsListed is_txn log.order t → Reaches (PrecedesTxn S start log.past) u t ↔ Reaches (PrecedesTxn S start later.past) u t }
    ensures mates { (S : Scheme) (start : Store) (log : Log) → IsSoundScheme S → LogInvariants S start log → (later : Log) → LogSteps S start log later
        → (t u : TxnId) → IsListed is_txn log.order t → Mates (PrecedesTxn S start log.past) t u ↔ Mates (PrecedesTxn S start later.past) t u }
{
    groups_stand_one_by_one();
    runs_stay();
    logs_grow();
}

/// What is settled is answered, and decided on each shard where it has a group; its mates are settled with it; and it stays settled.
pub fn settled_is_final()
    ensures answered { (S : Scheme) (start : Store) (log : Log) (u : TxnId) → IsSettled S start log u → IsListed is_txn log.answered u }
    ensures throughout { (S : Scheme) (start : Store) (log : Log) → LogInvariants S start log
        → (u : TxnId) → IsSettled S start log u → IsDecidedThroughout S start log u }
    ensures here { (S : Scheme) (start : Store) (log : Log) → LogInvariants S start log
        → (s : ℕ) (u : TxnId) → IsSettled S start log u → HasGroup S start log.past.ran s u → IsListed is_txn (log.decided s) u }
    ensures mates { (S : Scheme) (start : Store) (log : Log) (a b : TxnId) → Mates (PrecedesTxn S start log.past) a b
        → IsSettled S start log a → IsSettled S start log b }
    ensures stays { (S : Scheme) (start : Store) (log : Log) → IsSoundScheme S → LogInvariants S start log → (later : Log) → LogSteps S start log later
        → (u : TxnId) → IsSettled S start log u → IsSettled S start later u }
{
    groups_stand_one_by_one();
    runs_stay();
    logs_grow();
}

/// Shards agree on what has a group there: of two such transactions, one of which precedes the other, the first in the shard's list is the
/// first in the one order; and the component of such a one stands in the list as a whole, as it stands in the one order.
pub fn shards_keep_order()
    ensures order { (S : Scheme) (start : Store) (log : Log) → LogInvariants S start log
        → (s : ℕ) (a b : TxnId) → PrecedesTxn S start log.past a b ⊎ PrecedesTxn S start log.past b a → HasGroup S start log.past.ran s a → HasGroup S start log.past.ran s b
        → IsListed is_txn (log.decided s) a → IsListed is_txn (log.decided s) b
        → IsListedBefore is_txn (log.decided s) a b ↔ IsListedBefore is_txn log.order a b }
    ensures component { (S : Scheme) (start : Store) (log : Log) → LogInvariants S start log
        → (s : ℕ) (t u : TxnId) → HasGroup S start log.past.ran s t → IsListed is_txn (log.decided s) t → Mates (PrecedesTxn S start log.past) t u → IsListed is_txn (log.decided s) u }
    ensures mates { (S : Scheme) (start : Store) (log : Log) → LogInvariants S start log
        → (s : ℕ) (t a b : TxnId) → HasGroup S start log.past.ran s t → IsListed is_txn (log.decided s) t → Mates (PrecedesTxn S start log.past) t a
        → Mates (PrecedesTxn S start log.past) t b
        → IsListedBefore is_txn (log.decided s) a b ↔ IsListedBefore is_txn log.order a b }
{}

/// Ancestors come first: in the one order, and in each component order, what a chain leads from comes before what it leads to, unless the
/// two are in one component.
pub fn ancestors_come_first()
    ensures order { (S : Scheme) (start : Store) (log : Log) → LogInvariants S start log
        → (u t : TxnId) → IsListed is_txn log.order t → Reaches (PrecedesTxn S start log.past) u t → ¬ Mates (PrecedesTxn S start log.past) t u
        → IsListedBefore is_txn log.order u t }
    ensures taking_order { (known : List KnownList) (M xs : List TxnId) → IsComponentOrderOf known M xs
        → (u t : TxnId) → IsListed is_txn xs t → Reaches (among M (Precedes known)) u t → ¬ Mates (among M (Precedes known)) t u
        → IsListedBefore is_txn xs u t }
{}

/// The stores of the shards are one store whose cells are shared out: a group leaves the cells of other shards as they were, and from
/// any two stores that hold the same in the cells of its shard it does the same, and leaves the same in these cells.
pub fn stores_are_shared_out()
    ensures elsewhere { (S : Scheme) → IsSoundScheme S → (s : Stage) (r : TxnGroup) (x : Cell)
        → S.cell_shard x ≢ S.group_shard r (inputs_at S.behaviour s r) → read (after_group S.behaviour s r).store x ≡ read s.store x }
    ensures same { (S : Scheme) → IsSoundScheme S → (r : TxnGroup) (given : List (List ℤ)) (s t : Store)
        → ((x : Cell) → S.cell_shard x ≡ S.group_shard r given → read s x ≡ read t x) → DoesSame S.behaviour r given s t }
    ensures cells { (S : Scheme) → IsSoundScheme S → (r : TxnGroup) (given : List (List ℤ)) (s t : Store)
        → ((x : Cell) → S.cell_shard x ≡ S.group_shard r given → read s x ≡ read t x)
        → (x : Cell) → S.cell_shard x ≡ S.group_shard r given → read (S.behaviour.after r given s) x ≡ read (S.behaviour.after r given t) x }
{}

/// What is asked of a scheme can be met, and a transaction answered.
pub fn a_transaction_is_answered()
    ensures sound { IsSoundScheme counting }
    ensures answered { (start : Store) (t : TxnId) → (log : Log) × IsReachedLog counting start log × IsListed is_txn log.answered t }
{
    counter_is_lawful();
}

/// Component order by edges that somebody follows, of transactions whose edges are all followed, is an order in which a shard may take
/// those that it had not decided.
pub fn component_order_is_taken()
    ensures { (S : Scheme) (start : Store) (log : Log) → LogInvariants S start log
        → (s : ℕ) (edge now : TxnId → TxnId → Bool) (members all : List TxnId) → AreEdges S start log edge now all
        → ((u t : TxnId) → IsListed is_txn (new_in (log.decided s) all) t → PrecedesTxn S start log.past u t
        → IsListed is_txn (log.decided s) u ⊎ (IsListed is_txn (new_in (log.decided s) all) u ⊎ IsWaived S start log u))
        → IsComponentOrder (λ u t. IsTrue (edge u t)) (λ u t. IsTrue (now u t)) members all
        → RespectsPrecedence (PrecedesTxn S start log.past) (PrecedesTxnNow S start log.past) (IsWaived S start log) (new_in (log.decided s) all) }
{}
