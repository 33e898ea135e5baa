//! Laws of accepted plans: what the protocol rests on. Each is the contract of a function that does nothing.
ghost use Rattle.std.specs.Prelude.{◌≡◌, ◌≢◌, ◌↔◌, ℕ, false, ◌<◌, IsTrue, List, [], ◌∷◌, length};
ghost use Rattle.roc_sequence.specs.Lists.{Has};
ghost use Rattle.roc_conflict.specs.Immediate.{IsImmediate};
ghost use Rattle.roc_merge_groups.specs.Groups.{piece_numbered};
ghost use Rattle.roc_plan.specs.declared.group.Input.{Input};
ghost use Rattle.roc_plan.specs.Groups.{Plan, procedure_of, is_view_of, groups_of, group_of, is_immediate_of, bound_of, inputs_of};
ghost use Rattle.roc_plan.specs.Accepted.{IsAccepted};
ghost use Rattle.roc_plan.specs.Turns.{AreInTurn, may_meet};

/// Each procedure has a group, and a group is immediate exactly where its pieces are.
pub fn groups_have_the_class_of_their_pieces()
    ensures some { (plan : Plan) → IsAccepted plan → (proc : ℕ) → proc < length plan.program.procedures → 0 < length (groups_of plan proc) }
    ensures class { (plan : Plan) → IsAccepted plan → (proc g x : ℕ) → Has x (group_of plan proc g).pieces → IsTrue (is_immediate_of plan proc g)
        ↔ IsImmediate plan.program (piece_numbered proc x) }
{}

/// What a group takes comes from other groups of its procedure, which are immediate and bind it.
pub fn inputs_come_from_immediate_groups()
    ensures { (plan : Plan) → IsAccepted plan → (proc g : ℕ) (input : Input) → Has input (inputs_of plan proc g)
        → (input.group ≢ g) × (input.group < length (groups_of plan proc)) × IsTrue (is_immediate_of plan proc input.group) × (input.at < length (bound_of plan proc input.group)) }
{}

/// The groups of a procedure can run one after another, each behind those that it takes values from, the deferrable ones by number.
pub fn groups_can_run_in_turn()
    ensures { (plan : Plan) → IsAccepted plan → (proc : ℕ) → (order : List ℕ) × AreInTurn plan proc order }
{}

/// Groups that may meet are of one class; at most one group of a procedure is immediate and may meet any; and two groups of a procedure,
/// one of them immediate, never meet.
pub fn groups_meet_their_own_class()
    ensures one_class { (plan : Plan) → IsAccepted plan → (p g q h : ℕ) → IsTrue (may_meet plan p g q h) → is_immediate_of plan p g ≡ is_immediate_of plan q h }
    ensures one_contended { (plan : Plan) → IsAccepted plan → (p g h q i r j : ℕ) → IsTrue (is_immediate_of plan p g) → IsTrue (is_immediate_of plan p h)
        → IsTrue (may_meet plan p g q i) → IsTrue (may_meet plan p h r j) → g ≡ h }
    ensures siblings { (plan : Plan) → IsAccepted plan → (p g h : ℕ) → g ≢ h → IsTrue (is_immediate_of plan p g) → may_meet plan p g p h ≡ false }
{}

/// A view has a group for each of its pieces, by number, which is deferrable and takes nothing; and its groups may meet nobody's.
pub fn views_are_apart()
    ensures count { (plan : Plan) → IsAccepted plan → (proc : ℕ) → IsTrue (is_view_of plan proc) → length (groups_of plan proc) ≡ length (procedure_of plan proc).pieces }
    ensures pieces { (plan : Plan) → IsAccepted plan → (proc : ℕ) → IsTrue (is_view_of plan proc) → (g : ℕ) → g < length (groups_of plan proc) → (group_of plan proc g).pieces ≡ g ∷ [] }
    ensures deferrable { (plan : Plan) → IsAccepted plan → (proc : ℕ) → IsTrue (is_view_of plan proc) → (g : ℕ) → is_immediate_of plan proc g ≡ false }
    ensures inputs { (plan : Plan) → IsAccepted plan → (proc : ℕ) → IsTrue (is_view_of plan proc) → (g : ℕ) → inputs_of plan proc g ≡ [] }
    ensures meet { (plan : Plan) → (p g q h : ℕ) → IsTrue (is_view_of plan p) → may_meet plan p g q h ≡ false }
{}
