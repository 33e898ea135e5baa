//! What `roc_law_protocol` says of transactions holds in every world of every run with views, from any beginning (`specs/Beginnings.antt`). Its words of worlds
//! and steps are said of `bare` ones (`specs/Bare.antt`).
ghost use Rattle.std.specs.Prelude.{◌↔◌, ◌≡◌, ◌⊎◌, ◌≤◌, ◌<◌, ◌+◌, ◌-◌, ◌++◌, ℕ, ℤ, Bool, true, false, List, [], Option, Some, None, length, flat_map, slice_get};
ghost use Rattle.roc_sequence.specs.Lists.{Has};
ghost use Rattle.roc_sequence.specs.Places.{IsListed, IsListedBefore};
ghost use Rattle.roc_base.specs.declared.id.TxnId.{TxnId};
ghost use Rattle.roc_base.specs.declared.node.Shard.{Shard};
ghost use Rattle.roc_base.specs.declared.node.Node.TheVariants as node;
ghost use Rattle.roc_base.specs.TxnId.{is_txn};
ghost use Rattle.roc_base.specs.Edge.{Dependency};
ghost use Rattle.roc_depgraph.specs.declared.known.KnownList.{KnownList};
ghost use Rattle.roc_depgraph.specs.Deps.{entries_of, IsAncestor, IsDecided};
ghost use Rattle.roc_component.specs.Components.{HaveSameMembers};
ghost use Rattle.roc_plan.specs.Groups.{Plan, is_view_of};
ghost use Rattle.roc_plan.specs.Accepted.{IsAccepted};
ghost use Rattle.roc_msg.specs.declared.msg.Envelope.{Envelope};
ghost use Rattle.roc_msg.specs.declared.msg.Msg.TheVariants as msg;
ghost use Rattle.roc_step.specs.Below.{is_ended};
ghost use Rattle.roc_step.specs.Forgets.{is_over};
ghost use Rattle.roc_step.specs.State.{find_group, is_here, ServerState};
ghost use Rattle.roc_step.specs.declared.started.StartedGroup.{StartedGroup};
ghost use Rattle.roc_coord.specs.State.{CoordState};
ghost use Rattle.roc_coord.specs.Submit.{most_transactions, most_pending};
ghost use Rattle.roc_audit.specs.declared.entry.Entry.TheVariants.{Submitted};
ghost use Rattle.roc_audit.specs.History.{WasAnswered, IsAnsweredBefore};
ghost use Rattle.roc_audit.specs.Witness.{serial_reply_from, IsSerialWitnessFrom};
ghost use Rattle.roc_audit.specs.Woven.{without_views};
ghost use Rattle.roc_law_protocol.specs.declared.event.Event.{Event};
ghost use Rattle.roc_law_protocol.specs.declared.event.Event.TheVariants as event;
ghost use Rattle.roc_law_protocol.specs.declared.event.Seen.TheVariants as seen;
ghost use Rattle.roc_law_protocol.specs.Final.{lists_in, IsFinalIn};
ghost use Rattle.roc_law_protocol.specs.Forgotten.{HasStartedOn, IsSettledIn, IsTakenAt, IsFirstTaken, IsLastTaken};
ghost use Rattle.roc_law_protocol.specs.Kept.{KeepsWhatRan};
ghost use Rattle.roc_law_protocol.specs.Unanswered.{submitted_at, unanswered_at};
ghost use Rattle.roc_law_world.specs.World.{World, Beginning};
ghost use Rattle.roc_law_world.specs.Bare.{bare, bare_step, bare_steps};
ghost use Rattle.roc_law_world.specs.Beginnings.{IsViewBeginning};
ghost use Rattle.roc_law_world.specs.Beside.{TellsViews};
ghost use Rattle.roc_law_world.specs.Happens.{Outcome, Happens};
ghost use Rattle.roc_law_world.specs.Run.{Stepped, Transition, IsRunFrom};

use roc_law_plans::beginnings::accepted_plans_have_schemes_from_any_store;
use roc_law_protocol::beginnings::{
    answered_is_decided as answered_is_decided_there,
    answered_worlds_rest as answered_worlds_rest_there,
    forgotten_is_answered as forgotten_is_answered_there,
    kept_orders_are_serial as kept_orders_are_serial_there,
    left_out_is_earlier as left_out_is_earlier_there, lists_are_final as lists_are_final_there,
    order_is_serial, order_keeps_what_ran as order_keeps_what_ran_there,
    servers_agree as servers_agree_there, told_is_kept as told_is_kept_there,
    vanished_is_over as vanished_is_over_there,
};
use roc_law_protocol::laws::machine_laws;
use roc_plan::laws::views_are_apart;

/// What ran is in the serial order: of two transactions with groups in conflict on one server, the one whose group ran first there, or ran
/// while the other's is yet to run, stands first. So the order is one that keeps what ran.
pub fn order_keeps_what_ran()
    ensures { (plan : Plan) (b : Beginning) (coords : ℕ) (steps : List Stepped) (w : World) → IsAccepted plan → IsViewBeginning plan b → IsRunFrom plan b coords steps w
        → KeepsWhatRan plan (bare_steps steps) (bare w) w.order }
{
    accepted_plans_have_schemes_from_any_store();
    order_keeps_what_ran_there();
}

/// And any order of the same transactions that keeps what ran explains as much of them: in it each answered transaction has the reply that it had;
/// and it explains what the history tells of transactions where who was answered before another's submission stands before it.
pub fn kept_orders_are_serial()
    ensures replies { (plan : Plan) (b : Beginning) (coords : ℕ) (steps : List Stepped) (w : World) → IsAccepted plan → IsViewBeginning plan b → IsRunFrom plan b coords steps w
        → (O : List TxnId) → KeepsWhatRan plan (bare_steps steps) (bare w) O
        → (t : TxnId) (proc : ℕ) (args : List ℤ) → Has (Submitted t proc args) w.history → is_view_of plan proc ≡ false → (reply : List ℤ) → WasAnswered w.history t reply
        → serial_reply_from plan.program b.of_transactions.store w.history O t ≡ Some reply }
    ensures witness { (plan : Plan) (b : Beginning) (coords : ℕ) (steps : List Stepped) (w : World) → IsAccepted plan → IsViewBeginning plan b → IsRunFrom plan b coords steps w
        → (O : List TxnId) → KeepsWhatRan plan (bare_steps steps) (bare w) O
        → (is_view : TxnId → Bool) → TellsViews plan is_view w.history
        → ((t u : TxnId) → IsAnsweredBefore (without_views is_view w.history) t u → IsListed is_txn O u → IsListedBefore is_txn O t u)
        → IsSerialWitnessFrom plan.program b.of_transactions.store (without_views is_view w.history) O }
{
    accepted_plans_have_schemes_from_any_store();
    kept_orders_are_serial_there();
    order_is_serial();
}

/// Where each submitted transaction is answered, the nodes are done with transactions, whatever views are open: no event changes the order or what a server's
/// cells hold, and no coordinator has a transaction left.
pub fn answered_worlds_rest()
    ensures order { (plan : Plan) (b : Beginning) (coords : ℕ) (steps : List Stepped) (w : World) → IsAccepted plan → IsViewBeginning plan b → IsRunFrom plan b coords steps w
        → ((t : TxnId) (proc : ℕ) (args : List ℤ) → Has (Submitted t proc args) w.history → is_view_of plan proc ≡ false → (reply : List ℤ) × WasAnswered w.history t reply)
        → (e : Option Event) (o : Outcome) → Transition plan w e o → o.world.order ≡ w.order }
    ensures cells { (plan : Plan) (b : Beginning) (coords : ℕ) (steps : List Stepped) (w : World) → IsAccepted plan → IsViewBeginning plan b → IsRunFrom plan b coords steps w
        → ((t : TxnId) (proc : ℕ) (args : List ℤ) → Has (Submitted t proc args) w.history → is_view_of plan proc ≡ false → (reply : List ℤ) × WasAnswered w.history t reply)
        → (e : Option Event) (o : Outcome) → Transition plan w e o
        → (n : ℕ) (s v : ServerState) → slice_get w.servers n ≡ Some s → slice_get o.world.servers n ≡ Some v → v.store ≡ s.store }
    ensures pending { (plan : Plan) (b : Beginning) (coords : ℕ) (steps : List Stepped) (w : World) → IsAccepted plan → IsViewBeginning plan b → IsRunFrom plan b coords steps w
        → ((t : TxnId) (proc : ℕ) (args : List ℤ) → Has (Submitted t proc args) w.history → is_view_of plan proc ≡ false → (reply : List ℤ) × WasAnswered w.history t reply)
        → (n : ℕ) (c : CoordState) → slice_get w.coords n ≡ Some c → c.pending ≡ [] }
{
    accepted_plans_have_schemes_from_any_store();
    answered_worlds_rest_there();
}

/// A coordinator tells a watermark only where it has answered a transaction or view with each sequence below, from the beginning's next one on; so what a server has
/// heard of as ended was answered.
pub fn ended_is_answered()
    ensures told { (plan : Plan) (b : Beginning) (coords : ℕ) (steps : List Stepped) (w : World) → IsAccepted plan → IsViewBeginning plan b → IsRunFrom plan b coords steps w
        → (m : Envelope) → Has m w.sent → (coord mark : ℕ) → m.msg ≡ msg.Ended coord mark
        → (seq : ℕ) → b.of_transactions.nexts coord ≤ seq → seq < mark → (reply : List ℤ) × WasAnswered w.history (record { coord = coord; seq = seq }) reply }
    ensures heard { (plan : Plan) (b : Beginning) (coords : ℕ) (steps : List Stepped) (w : World) → IsAccepted plan → IsViewBeginning plan b → IsRunFrom plan b coords steps w
        → (n : ℕ) (s : ServerState) → slice_get w.servers n ≡ Some s
        → (t : TxnId) → b.of_transactions.nexts t.coord ≤ t.seq → is_ended s.below t ≡ true → (reply : List ℤ) × WasAnswered w.history t reply }
{
    views_are_apart();
}

/// Who is answered is decided on every server where it has a group.
pub fn answered_is_decided()
    ensures { (plan : Plan) (b : Beginning) (coords : ℕ) (steps : List Stepped) (w : World) → IsAccepted plan → IsViewBeginning plan b → IsRunFrom plan b coords steps w
        → (t : TxnId) (proc : ℕ) (args : List ℤ) → Has (Submitted t proc args) w.history → is_view_of plan proc ≡ false
        → (reply : List ℤ) → WasAnswered w.history t reply
        → (shard : Shard) (s : ServerState) → slice_get w.servers shard.0 ≡ Some s → (e : StartedGroup) → Has e s.started → e.id ≡ t → IsDecided s.lists.links t }
{
    accepted_plans_have_schemes_from_any_store();
    answered_is_decided_there();
}

/// What a start leaves out is earlier: what is decided on a server, or was ever taken there, stands in the serial order already, and a transaction of which a
/// group is to start there does not.
pub fn left_out_is_earlier()
    ensures decided { (plan : Plan) (b : Beginning) (coords : ℕ) (steps : List Stepped) (w : World) → IsAccepted plan → IsViewBeginning plan b → IsRunFrom plan b coords steps w
        → (shard : Shard) (s : ServerState) → slice_get w.servers shard.0 ≡ Some s
        → (t : TxnId) → IsDecided s.lists.links t → IsListed is_txn w.order t }
    ensures taken { (plan : Plan) (b : Beginning) (coords : ℕ) (steps : List Stepped) (w : World) → IsAccepted plan → IsViewBeginning plan b → IsRunFrom plan b coords steps w
        → (x : Stepped) (shard : Shard) (c : List TxnId) (t : TxnId) → Has x steps → IsTakenAt (bare_step x) shard c → Has t c → IsListed is_txn w.order t }
    ensures starting { (plan : Plan) (b : Beginning) (coords : ℕ) (steps : List Stepped) (w : World) → IsAccepted plan → IsViewBeginning plan b → IsRunFrom plan b coords steps w
        → (shard : Shard) (s : ServerState) → slice_get w.servers shard.0 ≡ Some s
        → (m : Envelope) → Has m w.sent → m.to ≡ node.Server shard → (id : TxnId) (proc group : ℕ) (args inputs : List ℤ) → m.msg ≡ msg.Start id proc group args inputs
        → find_group id group s.started ≡ None → is_ended s.below id ≡ false → ¬ IsListed is_txn w.order id }
{
    accepted_plans_have_schemes_from_any_store();
    left_out_is_earlier_there();
}

/// Lists are final: each list that a server knows, or that a commit, a known or a fact carries, is the union of what the startoks of all
/// groups of its transaction tell, which are in the network; and two startoks of one group are equal.
pub fn lists_are_final()
    ensures known { (plan : Plan) (b : Beginning) (coords : ℕ) (steps : List Stepped) (w : World) → IsAccepted plan → IsViewBeginning plan b → IsRunFrom plan b coords steps w
        → (shard : Shard) (s : ServerState) → slice_get w.servers shard.0 ≡ Some s
        → (k : KnownList) → Has k s.lists.known → IsFinalIn plan (bare w) k.of k.edges }
    ensures carried { (plan : Plan) (b : Beginning) (coords : ℕ) (steps : List Stepped) (w : World) → IsAccepted plan → IsViewBeginning plan b → IsRunFrom plan b coords steps w
        → (m : Envelope) → Has m w.sent → (k : KnownList) → Has k (lists_in m.msg) → IsFinalIn plan (bare w) k.of k.edges }
    ensures one { (plan : Plan) (b : Beginning) (coords : ℕ) (steps : List Stepped) (w : World) → IsAccepted plan → IsViewBeginning plan b → IsRunFrom plan b coords steps w
        → (m other : Envelope) → Has m w.sent → Has other w.sent
        → (t : TxnId) (g : ℕ) (shard at : Shard) (bound outs values gave : List ℤ) (edges entries : List Dependency) (facts lists : List KnownList)
        → m.msg ≡ msg.StartOk t g shard bound outs edges facts → other.msg ≡ msg.StartOk t g at values gave entries lists → m.msg ≡ other.msg }
{
    accepted_plans_have_schemes_from_any_store();
    lists_are_final_there();
}

/// What a startok tells of a group is what its server keeps: a startok of a group that is found on a server tells, from that server, the
/// bound values, outs, entries and facts that are kept of the group.
pub fn told_is_kept()
    ensures { (plan : Plan) (b : Beginning) (coords : ℕ) (steps : List Stepped) (w : World) → IsAccepted plan → IsViewBeginning plan b → IsRunFrom plan b coords steps w
        → (shard : Shard) (s : ServerState) → slice_get w.servers shard.0 ≡ Some s
        → (t : TxnId) (g : ℕ) (e : StartedGroup) → find_group t g s.started ≡ Some e
        → (m : Envelope) → Has m w.sent → (at : Shard) (bound outs : List ℤ) (edges : List Dependency) (facts : List KnownList)
        → m.msg ≡ msg.StartOk t g at bound outs edges facts → m.msg ≡ msg.StartOk t g shard e.bound e.outs e.edges e.facts }
{
    accepted_plans_have_schemes_from_any_store();
    told_is_kept_there();
}

/// What a coordinator keeps is what the history tells of it, of transactions and of views: it has used the sequences that were used before the run began, and one
/// for each submission in the history; and what is unanswered is what the history leaves unanswered, in its order. So a submission is refused as spent and as busy
/// exactly where these are so many.
pub fn refusals_are_told()
    ensures kept { (plan : Plan) (b : Beginning) (coords : ℕ) (steps : List Stepped) (w : World) → IsViewBeginning plan b → IsRunFrom plan b coords steps w
        → (coord : ℕ) (c : CoordState) → slice_get w.coords coord ≡ Some c
        → (c.next ≡ b.of_transactions.nexts coord + length (submitted_at coord w.history)) × (c.unanswered ≡ unanswered_at coord w.history) }
    ensures few { (plan : Plan) (b : Beginning) (coords : ℕ) (steps : List Stepped) (w : World) → IsViewBeginning plan b → IsRunFrom plan b coords steps w
        → (coord : ℕ) (c : CoordState) → slice_get w.coords coord ≡ Some c
        → (c.next ≤ most_transactions) × (length c.unanswered ≤ most_pending) }
    ensures spent { (plan : Plan) (b : Beginning) (coords : ℕ) (steps : List Stepped) (w : World) → IsViewBeginning plan b → IsRunFrom plan b coords steps w
        → (coord proc : ℕ) (args : List ℤ) (o : Outcome) → Happens plan w (event.Submit coord proc args) o
        → (o.seen ≡ seen.Spent) ↔ (b.of_transactions.nexts coord + length (submitted_at coord w.history) ≡ most_transactions) }
    ensures busy { (plan : Plan) (b : Beginning) (coords : ℕ) (steps : List Stepped) (w : World) → IsViewBeginning plan b → IsRunFrom plan b coords steps w
        → (coord proc : ℕ) (args : List ℤ) (o : Outcome) → Happens plan w (event.Submit coord proc args) o
        → (o.seen ≡ seen.Busy) ↔ ((b.of_transactions.nexts coord + length (submitted_at coord w.history) < most_transactions) × (length (unanswered_at coord w.history) ≡ most_pending)) }
{}

/// Two servers on which groups of a transaction started first took it in components of the same transactions. And of two transactions that
/// have groups on a server and are decided there, one of which is an ancestor of the other by what is followed there, the one that was taken
/// first is the earlier one in the serial order.
pub fn servers_agree()
    ensures components { (plan : Plan) (b : Beginning) (coords : ℕ) (steps : List Stepped) (w : World) → IsAccepted plan → IsViewBeginning plan b → IsRunFrom plan b coords steps w
        → (shard other : Shard) (t : TxnId) (c d : List TxnId) → HasStartedOn w.sent t shard → HasStartedOn w.sent t other
        → IsFirstTaken (bare_steps steps) shard t c → IsFirstTaken (bare_steps steps) other t d → HaveSameMembers c d }
    ensures order { (plan : Plan) (b : Beginning) (coords : ℕ) (steps : List Stepped) (w : World) → IsAccepted plan → IsViewBeginning plan b → IsRunFrom plan b coords steps w
        → (shard : Shard) (s : ServerState) → slice_get w.servers shard.0 ≡ Some s
        → (x y : TxnId) → is_here x s.started ≡ true → is_here y s.started ≡ true → IsDecided s.lists.links x → IsDecided s.lists.links y
        → IsAncestor s.lists.links x y ⊎ IsAncestor s.lists.links y x
        → IsListedBefore is_txn (flat_map (λ c. c) s.lists.taken) x y → IsListedBefore is_txn w.order x y }
{
    accepted_plans_have_schemes_from_any_store();
    servers_agree_there();
}

/// A server keeps exactly the transactions of the components that it took and that are not over by the watermarks that it has heard; what is
/// over has no group there and is not decided there any more. To a fetch it answers that a transaction is settled exactly where the component
/// in which it first took it is over. And whatever is forgotten, settled, or named by an entry that is done was answered, with all
/// transactions of its component; a settled tells a watermark below which all transactions and views of the run were answered.
pub fn forgotten_is_answered()
    ensures kept { (plan : Plan) (b : Beginning) (coords : ℕ) (steps : List Stepped) (w : World) → IsAccepted plan → IsViewBeginning plan b → IsRunFrom plan b coords steps w
        → (shard : Shard) (s : ServerState) → slice_get w.servers shard.0 ≡ Some s
        → (t : TxnId) → IsDecided s.lists.links t ↔ ((c : List TxnId) × IsLastTaken (bare_steps steps) shard t c × (is_over s.below c ≡ false)) }
    ensures gone { (plan : Plan) (b : Beginning) (coords : ℕ) (steps : List Stepped) (w : World) → IsAccepted plan → IsViewBeginning plan b → IsRunFrom plan b coords steps w
        → (shard : Shard) (s : ServerState) → slice_get w.servers shard.0 ≡ Some s
        → (t : TxnId) (c : List TxnId) → IsLastTaken (bare_steps steps) shard t c → is_over s.below c ≡ true
        → (is_here t s.started ≡ false) × (¬ IsDecided s.lists.links t) × IsSettledIn (bare w) t }
    ensures settled { (plan : Plan) (b : Beginning) (coords : ℕ) (steps : List Stepped) (w : World) → IsAccepted plan → IsViewBeginning plan b → IsRunFrom plan b coords steps w
        → (shard : Shard) (s : ServerState) → slice_get w.servers shard.0 ≡ Some s
        → (k : ℕ) (m : Envelope) (t : TxnId) (asker : Shard) (o : Outcome) (more : List Envelope) → slice_get w.sent (k - 1) ≡ Some m → m.to ≡ node.Server shard
        → m.msg ≡ msg.Fetch t asker → Happens plan w (event.Deliver k) o → o.world.sent ≡ w.sent ++ more
        → ((mark : ℕ) × (e : Envelope) × Has e more × (e.msg ≡ msg.Settled t mark)) ↔ ((c : List TxnId) × IsFirstTaken (bare_steps steps) shard t c × (is_over s.below c ≡ true)) }
    ensures done { (plan : Plan) (b : Beginning) (coords : ℕ) (steps : List Stepped) (w : World) → IsAccepted plan → IsViewBeginning plan b → IsRunFrom plan b coords steps w
        → (shard : Shard) (s : ServerState) → slice_get w.servers shard.0 ≡ Some s
        → (k : KnownList) (d : Dependency) → Has k s.lists.known → Has d k.edges → ¬ Has d (entries_of s.lists.links k.of) → IsSettledIn (bare w) d.from }
    ensures sent { (plan : Plan) (b : Beginning) (coords : ℕ) (steps : List Stepped) (w : World) → IsAccepted plan → IsViewBeginning plan b → IsRunFrom plan b coords steps w
        → (m : Envelope) (t : TxnId) (mark : ℕ) → Has m w.sent → m.msg ≡ msg.Settled t mark
        → IsSettledIn (bare w) t × ((seq : ℕ) → b.of_transactions.nexts t.coord ≤ seq → seq < mark → (reply : List ℤ) × WasAnswered w.history (record { coord = t.coord; seq = seq }) reply) }
{
    accepted_plans_have_schemes_from_any_store();
    forgotten_is_answered_there();
    views_are_apart();
}

/// What began vanishes only as it is over: where a startok tells of a group that does not stand on its server, no group of its transaction stands there, the first component that
/// the server took with it is over by the watermarks that it has heard, and all transactions of its component were answered.
pub fn vanished_is_over()
    ensures { (plan : Plan) (b : Beginning) (coords : ℕ) (steps : List Stepped) (w : World) → IsAccepted plan → IsViewBeginning plan b → IsRunFrom plan b coords steps w
        → (shard : Shard) (s : ServerState) → slice_get w.servers shard.0 ≡ Some s
        → (m : Envelope) → Has m w.sent → (t : TxnId) (g : ℕ) (bound outs : List ℤ) (edges : List Dependency) (facts : List KnownList)
        → m.msg ≡ msg.StartOk t g shard bound outs edges facts → find_group t g s.started ≡ None
        → (is_here t s.started ≡ false) × IsSettledIn (bare w) t × ((c : List TxnId) × IsFirstTaken (bare_steps steps) shard t c × (is_over s.below c ≡ true)) }
{
    accepted_plans_have_schemes_from_any_store();
    vanished_is_over_there();
}

/// A message that comes too late sends nothing: neither what a server says to transactions, nor an answer to a read that it keeps.
pub fn gone_sends_nothing()
    ensures { (plan : Plan) (b : Beginning) (coords : ℕ) (steps : List Stepped) (w : World) → IsAccepted plan → IsViewBeginning plan b → IsRunFrom plan b coords steps w
        → (e : Option Event) (o : Outcome) → Transition plan w e o → o.seen ≡ seen.Gone → o.world.sent ≡ w.sent }
{
    accepted_plans_have_schemes_from_any_store();
    machine_laws();
    views_are_apart();
}
