//! Whether groups of a procedure partition its pieces.
ghost use Rattle.std.specs.Prelude.{◌≡◌, ◌↔◌, ℕ, ◌<◌, length, map, count_by, IsTrue};
ghost use Rattle.std.specs.Bool.{nat_lt};
ghost use Rattle.std.specs.List.{AllByRecursion};
ghost use Rattle.roc_sequence.specs.Rising.{IsRising};
ghost use Rattle.roc_merge_groups.specs.Groups.{group_at, first_piece};
ghost use Rattle.roc_merge_groups.specs.Grouping.{IsGrouping};
ghost use Rattle.roc_merge_groups.specs.Parts.{IsPart};
ghost use Rattle.roc_merge_accept.specs.Inner.Tests.{has_piece};

/// Whether each of the first pieces is in one group, pieces and groups in order. Takes no memory.
pub(crate) fn is_grouping(groups: &[Vec<u16>], count: u16) -> bool
    ensures { IsTrue result ↔ IsGrouping count (map (λ g. g.items) groups.now) }
{
    if !are_parts(groups, count) {
        return false;
    }
    if !are_numbered(groups) {
        return false;
    }
    is_each_once(groups, count)
}

// Whether each group is some of the first pieces, in order.
fn are_parts(groups: &[Vec<u16>], count: u16) -> bool
    ensures { IsTrue result ↔ AllByRecursion (IsPart count) (map (λ g. g.items) groups.now) }
{
    for group in groups {
        if !is_part(group, count) {
            return false;
        }
    }
    true
}

fn is_part(group: &[u16], count: u16) -> bool
    ensures { IsTrue result ↔ IsPart count group.now }
{
    !group.is_empty() && is_rising(group) && group.iter().all(|piece| *piece < count)
}

// Whether each number is above the one before it.
fn is_rising(numbers: &[u16]) -> bool
    ensures { IsTrue result ↔ IsRising nat_lt numbers.now }
{
    for at in 1..numbers.len() {
        if numbers[at - 1] >= numbers[at] {
            return false;
        }
    }
    true
}

// Whether each group's first piece is behind that of the group before it.
fn are_numbered(groups: &[Vec<u16>]) -> bool
    requires { AllByRecursion (λ g. 0 < length g) (map (λ g. g.items) groups.now) }
    ensures { IsTrue result ↔ IsRising (λ g h. nat_lt (first_piece g) (first_piece h)) (map (λ g. g.items) groups.now) }
{
    for at in 1..groups.len() {
        if first_of(groups, at - 1) >= first_of(groups, at) {
            return false;
        }
    }
    true
}

fn first_of(groups: &[Vec<u16>], at: usize) -> u16
    requires at { at < length groups.now }
    requires some { AllByRecursion (λ g. 0 < length g) (map (λ g. g.items) groups.now) }
    ensures { result ≡ first_piece (group_at (map (λ g. g.items) groups.now) at) }
{
    groups[at][0]
}

// Whether each of the first pieces is in exactly one group.
fn is_each_once(groups: &[Vec<u16>], count: u16) -> bool
    ensures { IsTrue result ↔ ((x : ℕ) → x < count → count_by (λ g. has_piece x g.items) groups.now ≡ 1) }
{
    for piece in 0..count {
        if groups_with(groups, piece) != 1 {
            return false;
        }
    }
    true
}

// How many groups hold a piece.
fn groups_with(groups: &[Vec<u16>], piece: u16) -> usize
    ensures { result ≡ count_by (λ g. has_piece piece g.items) groups.now }
{
    groups.iter().filter(|group| group.contains(&piece)).count()
}
