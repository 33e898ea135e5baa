//! What holds in every world of every run that begins at a beginning (`specs/Beginnings.antt`): at any cells, next sequences and
//! watermarks, with nothing sent, started or pending, and in which coordinators do something aside.
ghost use Rattle.std.specs.Prelude.{◌↔◌, ◌≡◌, ◌≢◌, ◌⊎◌, ℕ, ℤ, pos, ◌-◌, ◌<◌, ◌≤◌, ◌++◌, true, false, List, [], Option, Some, None, flat_map, slice_get, ◌+◌};
ghost use Rattle.roc_sequence.specs.Lists.{Has};
ghost use Rattle.roc_sequence.specs.Places.{IsListed, IsListedBefore};
ghost use Rattle.roc_base.specs.declared.id.TxnId.{TxnId};
ghost use Rattle.roc_base.specs.declared.node.Shard.{Shard};
ghost use Rattle.roc_base.specs.declared.node.Node.TheVariants as node;
ghost use Rattle.roc_base.specs.TxnId.{is_txn};
ghost use Rattle.roc_base.specs.Edge.{Dependency};
ghost use Rattle.roc_depgraph.specs.declared.known.KnownList.{KnownList};
ghost use Rattle.roc_depgraph.specs.Deps.{entries_of, IsAncestor, IsDecided};
ghost use Rattle.roc_component.specs.Components.{HaveSameMembers};
ghost use Rattle.roc_coord.specs.declared.transaction.Transaction.{Transaction};
ghost use Rattle.roc_coord.specs.State.{CoordState};
ghost use Rattle.roc_msg.specs.declared.msg.Envelope.{Envelope};
ghost use Rattle.roc_msg.specs.declared.msg.Msg.TheVariants as msg;
ghost use Rattle.roc_msg.specs.declared.reason.Reason.{Reason};
ghost use Rattle.roc_msg.specs.declared.reason.Reason.TheVariants as reason;
ghost use Rattle.roc_step.specs.Below.{is_ended};
ghost use Rattle.roc_step.specs.Forgets.{is_over};
ghost use Rattle.roc_step.specs.State.{find_group, is_here, ServerState};
ghost use Rattle.roc_step.specs.declared.started.StartedGroup.{StartedGroup};
ghost use Rattle.roc_law_protocol.specs.declared.event.Event.{Event};
ghost use Rattle.roc_law_protocol.specs.declared.event.Event.TheVariants as event;
ghost use Rattle.roc_law_protocol.specs.declared.event.Seen.TheVariants as seen;
ghost use Rattle.roc_law_protocol.specs.Happens.{Outcome, Happens};
ghost use Rattle.roc_plan.specs.Groups.{Plan, shard_of};
ghost use Rattle.roc_audit.specs.declared.entry.Entry.TheVariants as entry;
ghost use Rattle.roc_audit.specs.History.{WasSubmitted, WasAnswered, IsAnsweredBefore, IsToldOnce};
ghost use Rattle.roc_audit.specs.Witness.{submitted_calls, serial_reply_from, IsSerialWitnessFrom};
ghost use Rattle.roc_rows.specs.declared.cell.Cell.{Cell};
ghost use Rattle.roc_rows.specs.Store.{read};
ghost use Rattle.roc_whole.specs.Serial.{serial_store};
ghost use Rattle.roc_law_protocol.specs.Final.{lists_in, IsFinalIn};
ghost use Rattle.roc_law_protocol.specs.Kept.{KeepsWhatRan};
ghost use Rattle.roc_law_protocol.specs.Forgotten.{HasStartedOn, IsSettledIn, IsTakenAt, IsFirstTaken, IsLastTaken};
ghost use Rattle.roc_law_protocol.specs.Quiet.{IsQuiet};
ghost use Rattle.roc_law_protocol.specs.World.{World};
ghost use Rattle.roc_law_protocol.specs.Beginnings.{Beginning, IsBeginning, first_beginning, left_by};
ghost use Rattle.roc_law_protocol.specs.Run.{Stepped};
ghost use Rattle.roc_law_protocol.specs.Beside.{Moves, IsRunBeside};
ghost use Rattle.roc_law_protocol.specs.PlanAssumptions.{HasSchemesFrom};

use crate::laws::machine_laws;
use roc_rows::laws::reads_after_writes;

/// The first world of the world that runs is that of a beginning, at the cells that the workload says.
pub fn first_worlds_begin()
    ensures { (plan : Plan) → IsBeginning plan (first_beginning plan) }
{
    machine_laws();
}

/// In every world the serial order explains the history, from the cells of the beginning on.
pub fn order_is_serial()
    ensures { (plan : Plan) (b : Beginning) (coords : ℕ) (steps : List Stepped) (w : World) → IsBeginning plan b → HasSchemesFrom plan b.store → IsRunBeside plan b coords steps w
        → IsSerialWitnessFrom plan.program b.store w.history w.order }
{
    machine_laws();
}

/// The order is one that keeps what ran.
pub fn order_keeps_what_ran()
    ensures { (plan : Plan) (b : Beginning) (coords : ℕ) (steps : List Stepped) (w : World) → IsBeginning plan b → HasSchemesFrom plan b.store → IsRunBeside plan b coords steps w
        → KeepsWhatRan plan steps w w.order }
{
    machine_laws();
}

/// Any order of the same transactions that keeps what ran, and real time, explains as much.
pub fn kept_orders_are_serial()
    ensures replies { (plan : Plan) (b : Beginning) (coords : ℕ) (steps : List Stepped) (w : World) → IsBeginning plan b → HasSchemesFrom plan b.store → IsRunBeside plan b coords steps w
        → (O : List TxnId) → KeepsWhatRan plan steps w O
        → (t : TxnId) (reply : List ℤ) → WasAnswered w.history t reply → serial_reply_from plan.program b.store w.history O t ≡ Some reply }
    ensures witness { (plan : Plan) (b : Beginning) (coords : ℕ) (steps : List Stepped) (w : World) → IsBeginning plan b → HasSchemesFrom plan b.store → IsRunBeside plan b coords steps w
        → (O : List TxnId) → KeepsWhatRan plan steps w O
        → ((t u : TxnId) → IsAnsweredBefore w.history t u → IsListed is_txn O u → IsListedBefore is_txn O t u) → IsSerialWitnessFrom plan.program b.store w.history O }
{
    machine_laws();
    order_is_serial();
}

/// Where each submitted transaction is answered, the servers hold what the serial order leaves, from the cells of the beginning on.
pub fn cells_are_serial()
    ensures { (plan : Plan) (b : Beginning) (coords : ℕ) (steps : List Stepped) (w : World) → IsBeginning plan b → HasSchemesFrom plan b.store → IsRunBeside plan b coords steps w
        → ((t : TxnId) → WasSubmitted w.history t → (reply : List ℤ) × WasAnswered w.history t reply)
        → (x : Cell) (s : ServerState) → slice_get w.servers (shard_of plan x.place) ≡ Some s
        → read s.store x ≡ read (serial_store plan.program b.store (submitted_calls w.history w.order)) x }
{
    machine_laws();
}

/// Where each submitted transaction is answered, no event changes the order or a cell, and no coordinator has a transaction left.
pub fn answered_worlds_rest()
    ensures order { (plan : Plan) (b : Beginning) (coords : ℕ) (steps : List Stepped) (w : World) → IsBeginning plan b → HasSchemesFrom plan b.store → IsRunBeside plan b coords steps w
        → ((t : TxnId) → WasSubmitted w.history t → (reply : List ℤ) × WasAnswered w.history t reply)
        → (e : Option Event) (o : Outcome) → Moves plan w e o → o.world.order ≡ w.order }
    ensures cells { (plan : Plan) (b : Beginning) (coords : ℕ) (steps : List Stepped) (w : World) → IsBeginning plan b → HasSchemesFrom plan b.store → IsRunBeside plan b coords steps w
        → ((t : TxnId) → WasSubmitted w.history t → (reply : List ℤ) × WasAnswered w.history t reply)
        → (e : Option Event) (o : Outcome) → Moves plan w e o
        → (n : ℕ) (s v : ServerState) → slice_get w.servers n ≡ Some s → slice_get o.world.servers n ≡ Some v → v.store ≡ s.store }
    ensures pending { (plan : Plan) (b : Beginning) (coords : ℕ) (steps : List Stepped) (w : World) → IsBeginning plan b → HasSchemesFrom plan b.store → IsRunBeside plan b coords steps w
        → ((t : TxnId) → WasSubmitted w.history t → (reply : List ℤ) × WasAnswered w.history t reply)
        → (n : ℕ) (c : CoordState) → slice_get w.coords n ≡ Some c → c.pending ≡ [] }
{
    machine_laws();
    order_is_serial();
    cells_are_serial();
    cells_are_in_their_place();
    reads_after_writes();
}

/// And there the nodes as they stand are a beginning again, at the cells that the serial order leaves.
pub fn answered_worlds_begin()
    ensures { (plan : Plan) (b : Beginning) (coords : ℕ) (steps : List Stepped) (w : World) → IsBeginning plan b → HasSchemesFrom plan b.store → IsRunBeside plan b coords steps w
        → 0 < plan.program.shards → ((t : TxnId) → WasSubmitted w.history t → (reply : List ℤ) × WasAnswered w.history t reply)
        → IsBeginning plan (left_by b w (serial_store plan.program b.store (submitted_calls w.history w.order))) }
{
    machine_laws();
}

/// Each shard has its server, which holds no cell of another shard.
pub fn cells_are_in_their_place()
    ensures servers { (plan : Plan) (b : Beginning) (coords : ℕ) (steps : List Stepped) (w : World) → IsRunBeside plan b coords steps w → (n : ℕ) → n < plan.program.shards
        → (s : ServerState) × (slice_get w.servers n ≡ Some s) }
    ensures apart { (plan : Plan) (b : Beginning) (coords : ℕ) (steps : List Stepped) (w : World) → IsBeginning plan b → HasSchemesFrom plan b.store → IsRunBeside plan b coords steps w
        → (shard : Shard) (s : ServerState) → slice_get w.servers shard.0 ≡ Some s → (x : Cell) → shard_of plan x.place ≢ shard.0 → read s.store x ≡ pos 0 }
{
    machine_laws();
}

/// A transaction of the run has a sequence number from the beginning's next one on. Each one below a coordinator's next one is that of a
/// transaction that was submitted, and that is pending there or was answered, or else it was used before the run or aside; and none is both.
pub fn submissions_are_kept()
    ensures late { (plan : Plan) (b : Beginning) (coords : ℕ) (steps : List Stepped) (w : World) → IsBeginning plan b → HasSchemesFrom plan b.store → IsRunBeside plan b coords steps w
        → (t : TxnId) → WasSubmitted w.history t → b.nexts t.coord ≤ t.seq }
    ensures numbers { (plan : Plan) (b : Beginning) (coords : ℕ) (steps : List Stepped) (w : World) → IsBeginning plan b → HasSchemesFrom plan b.store → IsRunBeside plan b coords steps w
        → (coord seq : ℕ) (c : CoordState) → slice_get w.coords coord ≡ Some c → seq < c.next
        → (WasSubmitted w.history (record { coord = coord; seq = seq })
        × (((x : Transaction) × Has x c.pending × (x.id ≡ record { coord = coord; seq = seq })) ⊎ ((reply : List ℤ) × WasAnswered w.history (record { coord = coord; seq = seq }) reply)))
        ⊎ (¬ WasSubmitted w.history (record { coord = coord; seq = seq })) }
    ensures submitted { (plan : Plan) (b : Beginning) (coords : ℕ) (steps : List Stepped) (w : World) → IsBeginning plan b → HasSchemesFrom plan b.store → IsRunBeside plan b coords steps w
        → (t : TxnId) → WasSubmitted w.history t
        → (c : CoordState) × (slice_get w.coords t.coord ≡ Some c)
        × (((x : Transaction) × Has x c.pending × (x.id ≡ t)) ⊎ ((reply : List ℤ) × WasAnswered w.history t reply)) }
    ensures gone { (plan : Plan) (b : Beginning) (coords : ℕ) (steps : List Stepped) (w : World) → IsBeginning plan b → HasSchemesFrom plan b.store → IsRunBeside plan b coords steps w
        → (t : TxnId) (reply : List ℤ) → WasAnswered w.history t reply → (n : ℕ) (c : CoordState) → slice_get w.coords n ≡ Some c → (x : Transaction)
        → Has x c.pending → x.id ≢ t }
{
    machine_laws();
}

/// Of the submissions in the history no two have one id; and an id has at most one answer, which stands behind its submission.
pub fn ids_are_told_once()
    ensures { (plan : Plan) (b : Beginning) (coords : ℕ) (steps : List Stepped) (w : World) → IsBeginning plan b → HasSchemesFrom plan b.store → IsRunBeside plan b coords steps w
        → IsToldOnce w.history }
{
    machine_laws();
}

/// Of the transactions of the run, each below a watermark that is told or was heard was answered.
pub fn ended_is_answered()
    ensures told { (plan : Plan) (b : Beginning) (coords : ℕ) (steps : List Stepped) (w : World) → IsBeginning plan b → HasSchemesFrom plan b.store → IsRunBeside plan b coords steps w
        → (m : Envelope) → Has m w.sent → (coord mark : ℕ) → m.msg ≡ msg.Ended coord mark
        → (seq : ℕ) → WasSubmitted w.history (record { coord = coord; seq = seq }) → seq < mark → (reply : List ℤ) × WasAnswered w.history (record { coord = coord; seq = seq }) reply }
    ensures heard { (plan : Plan) (b : Beginning) (coords : ℕ) (steps : List Stepped) (w : World) → IsBeginning plan b → HasSchemesFrom plan b.store → IsRunBeside plan b coords steps w
        → (n : ℕ) (s : ServerState) → slice_get w.servers n ≡ Some s → (t : TxnId) → WasSubmitted w.history t → is_ended s.below t ≡ true
        → (reply : List ℤ) × WasAnswered w.history t reply }
{
    machine_laws();
}

/// Who is answered is decided on every server where it has a group.
pub fn answered_is_decided()
    ensures { (plan : Plan) (b : Beginning) (coords : ℕ) (steps : List Stepped) (w : World) → IsBeginning plan b → HasSchemesFrom plan b.store → IsRunBeside plan b coords steps w
        → (t : TxnId) (reply : List ℤ) → WasAnswered w.history t reply
        → (shard : Shard) (s : ServerState) → slice_get w.servers shard.0 ≡ Some s → (e : StartedGroup) → Has e s.started → e.id ≡ t → IsDecided s.lists.links t }
{
    machine_laws();
}

/// What is decided on a server stands in the serial order already, and a transaction of which a group is to start there does not.
pub fn left_out_is_earlier()
    ensures decided { (plan : Plan) (b : Beginning) (coords : ℕ) (steps : List Stepped) (w : World) → IsBeginning plan b → HasSchemesFrom plan b.store → IsRunBeside plan b coords steps w
        → (shard : Shard) (s : ServerState) → slice_get w.servers shard.0 ≡ Some s → (t : TxnId) → IsDecided s.lists.links t → IsListed is_txn w.order t }
    ensures taken { (plan : Plan) (b : Beginning) (coords : ℕ) (steps : List Stepped) (w : World) → IsBeginning plan b → HasSchemesFrom plan b.store → IsRunBeside plan b coords steps w
        → (x : Stepped) (shard : Shard) (c : List TxnId) (t : TxnId) → Has x steps → IsTakenAt x shard c → Has t c → IsListed is_txn w.order t }
    ensures starting { (plan : Plan) (b : Beginning) (coords : ℕ) (steps : List Stepped) (w : World) → IsBeginning plan b → HasSchemesFrom plan b.store → IsRunBeside plan b coords steps w
        → (shard : Shard) (s : ServerState) → slice_get w.servers shard.0 ≡ Some s
        → (m : Envelope) → Has m w.sent → m.to ≡ node.Server shard → (id : TxnId) (proc group : ℕ) (args inputs : List ℤ) → m.msg ≡ msg.Start id proc group args inputs
        → find_group id group s.started ≡ None → is_ended s.below id ≡ false → ¬ IsListed is_txn w.order id }
{
    machine_laws();
}

/// Lists are final, and two startoks of one group are equal.
pub fn lists_are_final()
    ensures known { (plan : Plan) (b : Beginning) (coords : ℕ) (steps : List Stepped) (w : World) → IsBeginning plan b → HasSchemesFrom plan b.store → IsRunBeside plan b coords steps w
        → (shard : Shard) (s : ServerState) → slice_get w.servers shard.0 ≡ Some s → (k : KnownList) → Has k s.lists.known → IsFinalIn plan w k.of k.edges }
    ensures carried { (plan : Plan) (b : Beginning) (coords : ℕ) (steps : List Stepped) (w : World) → IsBeginning plan b → HasSchemesFrom plan b.store → IsRunBeside plan b coords steps w
        → (m : Envelope) → Has m w.sent → (k : KnownList) → Has k (lists_in m.msg) → IsFinalIn plan w k.of k.edges }
    ensures one { (plan : Plan) (b : Beginning) (coords : ℕ) (steps : List Stepped) (w : World) → IsBeginning plan b → HasSchemesFrom plan b.store → IsRunBeside plan b coords steps w
        → (m other : Envelope) → Has m w.sent → Has other w.sent
        → (t : TxnId) (g : ℕ) (shard at : Shard) (bound outs values gave : List ℤ) (edges entries : List Dependency) (facts lists : List KnownList)
        → m.msg ≡ msg.StartOk t g shard bound outs edges facts → other.msg ≡ msg.StartOk t g at values gave entries lists → m.msg ≡ other.msg }
{
    machine_laws();
}

/// What a startok tells of a group is what its server keeps.
pub fn told_is_kept()
    ensures { (plan : Plan) (b : Beginning) (coords : ℕ) (steps : List Stepped) (w : World) → IsBeginning plan b → HasSchemesFrom plan b.store → IsRunBeside plan b coords steps w
        → (shard : Shard) (s : ServerState) → slice_get w.servers shard.0 ≡ Some s → (t : TxnId) (g : ℕ) (e : StartedGroup) → find_group t g s.started ≡ Some e
        → (m : Envelope) → Has m w.sent → (at : Shard) (bound outs : List ℤ) (edges : List Dependency) (facts : List KnownList)
        → m.msg ≡ msg.StartOk t g at bound outs edges facts → m.msg ≡ msg.StartOk t g shard e.bound e.outs e.edges e.facts }
{
    machine_laws();
}

/// A server takes each message that comes or finds it too late, and a coordinator ignores only stale ones.
pub fn nothing_is_refused()
    ensures servers { (plan : Plan) (b : Beginning) (coords : ℕ) (steps : List Stepped) (w : World) → IsBeginning plan b → HasSchemesFrom plan b.store → IsRunBeside plan b coords steps w
        → (k : ℕ) (m : Envelope) (shard : Shard) (o : Outcome) → slice_get w.sent (k - 1) ≡ Some m → m.to ≡ node.Server shard
        → Happens plan w (event.Deliver k) o → (o.seen ≡ seen.Done) ⊎ (o.seen ≡ seen.Gone) }
    ensures coordinators { (plan : Plan) (b : Beginning) (coords : ℕ) (steps : List Stepped) (w : World) → IsBeginning plan b → HasSchemesFrom plan b.store → IsRunBeside plan b coords steps w
        → (k : ℕ) (o : Outcome) (why : Reason) → Happens plan w (event.Deliver k) o → o.seen ≡ seen.Ignored why → why ≡ reason.Stale }
{
    machine_laws();
}

/// A submitted transaction that is quiet has its reply, and a quiet one is decided wherever it has a group.
pub fn quiet_is_answered()
    ensures answered { (plan : Plan) (b : Beginning) (coords : ℕ) (steps : List Stepped) (w : World) → IsBeginning plan b → HasSchemesFrom plan b.store → IsRunBeside plan b coords steps w
        → (t : TxnId) (proc : ℕ) (args : List ℤ) → Has (entry.Submitted t proc args) w.history → IsQuiet plan steps w t → (reply : List ℤ) × Has (entry.Answered t reply) w.history }
    ensures decided { (plan : Plan) (b : Beginning) (coords : ℕ) (steps : List Stepped) (w : World) → IsBeginning plan b → HasSchemesFrom plan b.store → IsRunBeside plan b coords steps w
        → (t : TxnId) → IsQuiet plan steps w t → (shard : Shard) (s : ServerState) → slice_get w.servers shard.0 ≡ Some s → (e : StartedGroup) → Has e s.started → e.id ≡ t
        → IsDecided s.lists.links t }
{
    machine_laws();
}

/// Two servers on which groups of a transaction started first took it in components of the same transactions. And of two transactions that
/// have groups on a server and are decided there, one of which is an ancestor of the other by what is followed there, the one that was taken
/// first is the earlier one in the serial order.
pub fn servers_agree()
    ensures components { (plan : Plan) (b : Beginning) (coords : ℕ) (steps : List Stepped) (w : World) → IsBeginning plan b → HasSchemesFrom plan b.store → IsRunBeside plan b coords steps w
        → (shard other : Shard) (t : TxnId) (c d : List TxnId) → HasStartedOn w.sent t shard → HasStartedOn w.sent t other
        → IsFirstTaken steps shard t c → IsFirstTaken steps other t d → HaveSameMembers c d }
    ensures order { (plan : Plan) (b : Beginning) (coords : ℕ) (steps : List Stepped) (w : World) → IsBeginning plan b → HasSchemesFrom plan b.store → IsRunBeside plan b coords steps w
        → (shard : Shard) (s : ServerState) → slice_get w.servers shard.0 ≡ Some s
        → (x y : TxnId) → is_here x s.started ≡ true → is_here y s.started ≡ true → IsDecided s.lists.links x → IsDecided s.lists.links y
        → IsAncestor s.lists.links x y ⊎ IsAncestor s.lists.links y x
        → IsListedBefore is_txn (flat_map (λ c. c) s.lists.taken) x y → IsListedBefore is_txn w.order x y }
{
    machine_laws();
}

/// A server keeps exactly the transactions of the components that it took and that are not over by the watermarks that it has heard; what is
/// over has no group there and is not decided there any more. To a fetch it answers that a transaction is settled exactly where the component
/// in which it first took it is over. And whatever is forgotten, settled, or named by an entry that is done was answered, with all
/// transactions of its component.
pub fn forgotten_is_answered()
    ensures kept { (plan : Plan) (b : Beginning) (coords : ℕ) (steps : List Stepped) (w : World) → IsBeginning plan b → HasSchemesFrom plan b.store → IsRunBeside plan b coords steps w
        → (shard : Shard) (s : ServerState) → slice_get w.servers shard.0 ≡ Some s
        → (t : TxnId) → IsDecided s.lists.links t ↔ ((c : List TxnId) × IsLastTaken steps shard t c × (is_over s.below c ≡ false)) }
    ensures gone { (plan : Plan) (b : Beginning) (coords : ℕ) (steps : List Stepped) (w : World) → IsBeginning plan b → HasSchemesFrom plan b.store → IsRunBeside plan b coords steps w
        → (shard : Shard) (s : ServerState) → slice_get w.servers shard.0 ≡ Some s
        → (t : TxnId) (c : List TxnId) → IsLastTaken steps shard t c → is_over s.below c ≡ true
        → (is_here t s.started ≡ false) × (¬ IsDecided s.lists.links t) × IsSettledIn w t }
    ensures settled { (plan : Plan) (b : Beginning) (coords : ℕ) (steps : List Stepped) (w : World) → IsBeginning plan b → HasSchemesFrom plan b.store → IsRunBeside plan b coords steps w
        → (shard : Shard) (s : ServerState) → slice_get w.servers shard.0 ≡ Some s
        → (k : ℕ) (m : Envelope) (t : TxnId) (asker : Shard) (o : Outcome) (more : List Envelope) → slice_get w.sent (k - 1) ≡ Some m → m.to ≡ node.Server shard
        → m.msg ≡ msg.Fetch t asker → Happens plan w (event.Deliver k) o → o.world.sent ≡ w.sent ++ more
        → ((mark : ℕ) × (e : Envelope) × Has e more × (e.msg ≡ msg.Settled t mark)) ↔ ((c : List TxnId) × IsFirstTaken steps shard t c × (is_over s.below c ≡ true)) }
    ensures done { (plan : Plan) (b : Beginning) (coords : ℕ) (steps : List Stepped) (w : World) → IsBeginning plan b → HasSchemesFrom plan b.store → IsRunBeside plan b coords steps w
        → (shard : Shard) (s : ServerState) → slice_get w.servers shard.0 ≡ Some s
        → (k : KnownList) (d : Dependency) → Has k s.lists.known → Has d k.edges → ¬ Has d (entries_of s.lists.links k.of) → IsSettledIn w d.from }
    ensures sent { (plan : Plan) (b : Beginning) (coords : ℕ) (steps : List Stepped) (w : World) → IsBeginning plan b → HasSchemesFrom plan b.store → IsRunBeside plan b coords steps w
        → (m : Envelope) (t : TxnId) (mark : ℕ) → Has m w.sent → m.msg ≡ msg.Settled t mark
        → IsSettledIn w t × ((seq : ℕ) → WasSubmitted w.history (record { coord = t.coord; seq = seq }) → seq < mark
        → (reply : List ℤ) × WasAnswered w.history (record { coord = t.coord; seq = seq }) reply) }
{
    machine_laws();
}

/// What began vanishes only as it is over: where a startok tells of a group that does not stand on its server, no group of its transaction stands there, the first component that
/// the server took with it is over by the watermarks that it has heard, and all transactions of its component were answered.
pub fn vanished_is_over()
    ensures { (plan : Plan) (b : Beginning) (coords : ℕ) (steps : List Stepped) (w : World) → IsBeginning plan b → HasSchemesFrom plan b.store → IsRunBeside plan b coords steps w
        → (shard : Shard) (s : ServerState) → slice_get w.servers shard.0 ≡ Some s
        → (m : Envelope) → Has m w.sent → (t : TxnId) (g : ℕ) (bound outs : List ℤ) (edges : List Dependency) (facts : List KnownList)
        → m.msg ≡ msg.StartOk t g shard bound outs edges facts → find_group t g s.started ≡ None
        → (is_here t s.started ≡ false) × IsSettledIn w t × ((c : List TxnId) × IsFirstTaken steps shard t c × (is_over s.below c ≡ true)) }
{
    machine_laws();
}
