//! Laws of groups, each the contract of a function that does nothing.
ghost use Rattle.std.specs.Prelude.{◌≡◌, ◌<◌, true, false, IsTrue, length};
ghost use Rattle.std.specs.List.{AllByRecursion};
ghost use Rattle.roc_rows.specs.declared.cell.Cell.{Cell};
ghost use Rattle.roc_rows.specs.Store.{Store, read};
ghost use Rattle.roc_plan.specs.Groups.{Plan, is_view_of, is_immediate_of, group_place};
ghost use Rattle.roc_plan.specs.Accepted.{IsAccepted};
ghost use Rattle.roc_plan.specs.Turns.{may_meet};
ghost use Rattle.roc_group.specs.Accesses.{do_conflict, do_write, AgreeOnReads, RunAlike};
ghost use Rattle.roc_group.specs.GroupRun.{GroupCall, group_pieces, begin, group_run, group_uses};

/// The cells that a deferrable group uses follow from what it is given: they are the same on every store.
pub fn cells_follow_from_what_is_given()
    ensures { (plan : Plan) (c : GroupCall) (s t : Store) → IsAccepted plan → c.proc < length plan.program.procedures → is_immediate_of plan c.proc c.group ≡ false
        → group_uses plan c s ≡ group_uses plan c t }
{}

/// All cells that a group uses are at the group's place, so that they are on one shard.
pub fn cells_are_at_the_place()
    ensures { (plan : Plan) (c : GroupCall) (s : Store) → IsAccepted plan → c.proc < length plan.program.procedures
        → AllByRecursion (λ a. a.cell.place ≡ group_place plan c.proc c.group c.args c.inputs) (group_uses plan c s) }
{}

/// Groups of transactions that use a cell in common which one of the two writes may meet by static conflict. Views stand outside
/// of static conflict: what they read is not kept from changing by it.
pub fn conflicts_are_static()
    ensures { (plan : Plan) (b c : GroupCall) (s t : Store) → is_view_of plan b.proc ≡ false → is_view_of plan c.proc ≡ false
        → do_conflict (group_uses plan b s) (group_uses plan c t) ≡ true → may_meet plan b.proc b.group c.proc c.group ≡ true }
{}

/// What a group does depends on nothing but the numbers in the cells that it reads, and it changes
/// no cell but those that it uses as writes.
pub fn runs_follow_from_cells()
    ensures same { (plan : Plan) (c : GroupCall) (s t : Store) → AgreeOnReads s t (group_uses plan c s) → RunAlike (begin plan c s) (begin plan c t) (group_pieces plan c) }
    ensures others { (plan : Plan) (c : GroupCall) (s : Store) (x : Cell) → do_write (group_uses plan c s) x ≡ false → read (group_run plan c s).store x ≡ read s x }
{}

/// The groups of a view only read: no use of theirs writes, and they leave the store as it is.
pub fn views_read_alone()
    ensures uses { (plan : Plan) (c : GroupCall) (s : Store) → IsAccepted plan → IsTrue (is_view_of plan c.proc) → AllByRecursion (λ a. a.writes ≡ false) (group_uses plan c s) }
    ensures store { (plan : Plan) (c : GroupCall) (s : Store) → IsAccepted plan → IsTrue (is_view_of plan c.proc) → (group_run plan c s).store ≡ s }
{}
