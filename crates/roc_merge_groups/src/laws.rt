//! Laws of groups. Each is the contract of a function that does nothing.
ghost use Rattle.std.specs.Prelude.{◌≡◌, ◌≢◌, ◌↔◌, ℕ, Bool, false, ◌<◌, IsTrue, List, length};
ghost use Rattle.roc_sequence.specs.Lists.{Has};
ghost use Rattle.roc_program.specs.Program.{Workload};
ghost use Rattle.roc_program.specs.WellFormed.{IsProgram};
ghost use Rattle.roc_program.specs.Conflict.{are_in_conflict};
ghost use Rattle.roc_program.specs.declared.piece_id.PieceId.{PieceId};
ghost use Rattle.roc_conflict.specs.Immediate.{IsImmediate};
ghost use Rattle.roc_conflict.specs.Contended.{is_contended};
ghost use Rattle.roc_scgraph.specs.declared.vertex.Vertex.{Vertex};
ghost use Rattle.roc_scgraph.specs.Cycles.{IsUnreorderable};
ghost use Rattle.roc_merge_groups.specs.Groups.{piece_numbered, groups_in};
ghost use Rattle.roc_merge_groups.specs.Core.{IsAcceptable};
ghost use Rattle.roc_merge_groups.specs.Grouping.{AreTogether, IsMerged};
ghost use Rattle.roc_merge_groups.specs.Accepted.{over_groups, is_immediate_group, group_feeds, IsAcceptedIn, IsAcceptedGrouping};

/// At most one grouping is the merged one.
pub fn merged_groups_are_one()
    ensures { (program : Workload) (is_immediate : PieceId → Bool) (groups others : List (List (List ℕ)))
        → IsMerged program is_immediate groups → IsMerged program is_immediate others → groups ≡ others }
{}

/// The merged groups of an acceptable workload are accepted.
pub fn merged_groups_are_accepted()
    ensures { (program : Workload) (is_immediate : PieceId → Bool) (groups : List (List (List ℕ)))
        → IsProgram program → ((id : PieceId) → IsTrue (is_immediate id) ↔ IsImmediate program id)
        → IsAcceptable program is_immediate → IsMerged program is_immediate groups → IsAcceptedGrouping program is_immediate groups }
{}

/// The graph over groups that are accepted in all else has no unreorderable cycle exactly where the contended pieces of each procedure
/// are all in one group.
pub fn cycles_are_between_contended_groups()
    ensures { (program : Workload) (is_immediate : PieceId → Bool) (groups : List (List (List ℕ)))
        → length groups ≡ length program.procedures → ((id : PieceId) → IsTrue (is_immediate id) ↔ IsImmediate program id)
        → ((proc : ℕ) → proc < length program.procedures → IsAcceptedIn program is_immediate proc (groups_in groups proc))
        → ((cycle : List Vertex) → ¬ IsUnreorderable (over_groups program groups) (is_immediate_group is_immediate groups) cycle)
        ↔ ((proc x y : ℕ) → IsTrue (is_contended program is_immediate (piece_numbered proc x)) → IsTrue (is_contended program is_immediate (piece_numbered proc y))
        → AreTogether (groups_in groups proc) x y) }
{}

/// Of accepted groups each procedure has at most one that is contended; groups in conflict are of one class; and two groups of a
/// procedure, one of them immediate, never conflict. The same is said of their pieces.
pub fn accepted_groups_meet_others_alone()
    ensures one_contended { (program : Workload) (is_immediate : PieceId → Bool) (groups : List (List (List ℕ))) → IsAcceptedGrouping program is_immediate groups
        → (p q : PieceId) → p.proc ≡ q.proc → IsTrue (is_contended (over_groups program groups) (is_immediate_group is_immediate groups) p)
        → IsTrue (is_contended (over_groups program groups) (is_immediate_group is_immediate groups) q) → p ≡ q }
    ensures one_class { (program : Workload) (is_immediate : PieceId → Bool) (groups : List (List (List ℕ))) → IsAcceptedGrouping program is_immediate groups
        → (p q : PieceId) → IsTrue (are_in_conflict (over_groups program groups) p q) → is_immediate_group is_immediate groups p ≡ is_immediate_group is_immediate groups q }
    ensures siblings { (program : Workload) (is_immediate : PieceId → Bool) (groups : List (List (List ℕ))) → IsAcceptedGrouping program is_immediate groups
        → (p q : PieceId) → p ≢ q → p.proc ≡ q.proc → IsTrue (is_immediate_group is_immediate groups p) → are_in_conflict (over_groups program groups) p q ≡ false }
    ensures contended_pieces { (program : Workload) (is_immediate : PieceId → Bool) (groups : List (List (List ℕ))) → IsAcceptedGrouping program is_immediate groups
        → (proc x y : ℕ) → IsTrue (is_contended program is_immediate (piece_numbered proc x)) → IsTrue (is_contended program is_immediate (piece_numbered proc y))
        → AreTogether (groups_in groups proc) x y }
    ensures pieces_apart { (program : Workload) (is_immediate : PieceId → Bool) (groups : List (List (List ℕ))) → IsAcceptedGrouping program is_immediate groups
        → (proc : ℕ) (g h : List ℕ) (x y : ℕ) → Has g (groups_in groups proc) → Has h (groups_in groups proc) → g ≢ h → Has x g → Has y h
        → IsTrue (is_immediate (piece_numbered proc x)) → are_in_conflict program (piece_numbered proc x) (piece_numbered proc y) ≡ false }
{}

/// Of accepted groups of a well-formed program each procedure has one at least, and what a group needs of others comes from immediate
/// ones.
pub fn accepted_groups_need_immediate_ones()
    ensures some { (program : Workload) (is_immediate : PieceId → Bool) (groups : List (List (List ℕ))) → IsProgram program → IsAcceptedGrouping program is_immediate groups
        → (proc : ℕ) → proc < length program.procedures → 0 < length (groups_in groups proc) }
    ensures needed { (program : Workload) (is_immediate : PieceId → Bool) (groups : List (List (List ℕ))) → IsProgram program → IsAcceptedGrouping program is_immediate groups
        → (proc g h : ℕ) → proc < length program.procedures → g ≢ h → IsTrue (group_feeds program proc (groups_in groups proc) g h)
        → IsTrue (is_immediate_group is_immediate groups (piece_numbered proc g)) }
{}
