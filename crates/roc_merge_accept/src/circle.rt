//! Whether groups of a procedure depend on each other in a circle.
ghost use Rattle.std.specs.Prelude.{◌≡◌, ◌≢◌, ◌↔◌, ℕ, false, ◌<◌, ◌≤◌, ◌&&◌, ◌||◌, length, map, slice_index_or, IsTrue};
ghost use Rattle.std.specs.List.{AllByRecursion, list_any};
ghost use Rattle.roc_program.specs.Pieces.{pieces_in};
ghost use Rattle.roc_merge_groups.specs.Flow.{feeds, Leads};
ghost use Rattle.roc_merge_groups.specs.Accepted.{group_feeds};
ghost use Rattle.roc_merge_groups.specs.Parts.{IsPart};
ghost use Rattle.roc_merge_accept.specs.Inner.Paths.{entry, IsPaths};

use crate::feeds;
use roc_program::Workload;

/// Whether no two groups depend on each other in a circle. Takes no memory.
pub(crate) fn has_no_circle(workload: &Workload, proc: u16, groups: &[Vec<u16>]) -> bool
    requires procedure { proc < length workload.now.procedures }
    requires few { length groups.now ≤ 16 }
    requires parts { AllByRecursion (IsPart (length (pieces_in workload.now proc))) (map (λ g. g.items) groups.now) }
    ensures { IsTrue result ↔ ((g h : ℕ) → g ≢ h → Leads (group_feeds workload.now proc (map (λ g. g.items) groups.now)) g h
        → ¬ Leads (group_feeds workload.now proc (map (λ g. g.items) groups.now)) h g) }
{
    let paths = paths_of(workload, proc, groups);
    for one in 0..groups.len() {
        if is_on_circle(&paths, one, groups.len()) {
            return false;
        }
    }
    true
}

// Whether a group leads to another one that leads back.
fn is_on_circle(paths: &[[bool; 16]; 16], one: usize, count: usize) -> bool
    requires few { count ≤ 16 }
    requires one { one < count }
    ensures { (result ≡ false) ↔ ((other : ℕ) → other < count → one ≢ other → IsTrue (entry paths.now one other) → ¬ IsTrue (entry paths.now other one)) }
{
    for other in 0..count {
        if one != other && paths[one][other] && paths[other][one] {
            return true;
        }
    }
    false
}

// Which group leads to which: paths through more and more of the groups.
fn paths_of(workload: &Workload, proc: u16, groups: &[Vec<u16>]) -> [[bool; 16]; 16]
    requires procedure { proc < length workload.now.procedures }
    requires few { length groups.now ≤ 16 }
    requires parts { AllByRecursion (IsPart (length (pieces_in workload.now proc))) (map (λ g. g.items) groups.now) }
    ensures { IsPaths (group_feeds workload.now proc (map (λ g. g.items) groups.now)) (length groups.now) (length groups.now) result }
{
    let mut paths = steps_of(workload, proc, groups);
    for by in 0..groups.len() {
        paths = paths_by(&paths, by, groups.len());
    }
    paths
}

// The paths through one more group.
fn paths_by(paths: &[[bool; 16]; 16], by: usize, count: usize) -> [[bool; 16]; 16]
    requires few { count ≤ 16 }
    requires by { by < count }
    ensures { (a b : ℕ) → a < count → b < count → entry result a b ≡ (entry paths.now a b || (entry paths.now a by && entry paths.now by b)) }
{
    let mut all = *paths;
    for from in 0..count {
        let row = row_by(&paths[from], &paths[by], by, count);
        all[from] = row;
    }
    all
}

// Those from one group, which are its own, and those onward from the other where it leads there.
fn row_by(row: &[bool; 16], onward: &[bool; 16], by: usize, count: usize) -> [bool; 16]
    requires few { count ≤ 16 }
    requires by { by < count }
    ensures { (b : ℕ) → b < count → slice_index_or result b false ≡ (slice_index_or row.now b false || (slice_index_or row.now by false && slice_index_or onward.now b false)) }
{
    let mut all = *row;
    for to in 0..count {
        all[to] = row[to] || row[by] && onward[to];
    }
    all
}

// Which group feeds which.
fn steps_of(workload: &Workload, proc: u16, groups: &[Vec<u16>]) -> [[bool; 16]; 16]
    requires procedure { proc < length workload.now.procedures }
    requires few { length groups.now ≤ 16 }
    requires parts { AllByRecursion (IsPart (length (pieces_in workload.now proc))) (map (λ g. g.items) groups.now) }
    ensures { IsPaths (group_feeds workload.now proc (map (λ g. g.items) groups.now)) (length groups.now) 0 result }
{
    let mut steps = [[false; 16]; 16];
    for from in 0..groups.len() {
        let row = steps_from(workload, proc, groups, from);
        steps[from] = row;
    }
    steps
}

// Which groups this one feeds.
fn steps_from(workload: &Workload, proc: u16, groups: &[Vec<u16>], from: usize) -> [bool; 16]
    requires procedure { proc < length workload.now.procedures }
    requires few { length groups.now ≤ 16 }
    requires from { from < length groups.now }
    requires parts { AllByRecursion (IsPart (length (pieces_in workload.now proc))) (map (λ g. g.items) groups.now) }
    ensures { (to : ℕ) → to < length groups.now → slice_index_or result to false ≡ group_feeds workload.now proc (map (λ g. g.items) groups.now) from to }
{
    let mut row = [false; 16];
    for to in 0..groups.len() {
        row[to] = is_fed(workload, proc, &groups[from], &groups[to]);
    }
    row
}

// Whether a piece of the one group feeds a piece of the other.
fn is_fed(workload: &Workload, proc: u16, sources: &[u16], users: &[u16]) -> bool
    requires procedure { proc < length workload.now.procedures }
    requires sources { AllByRecursion (λ x. x < length (pieces_in workload.now proc)) sources.now }
    requires users { AllByRecursion (λ x. x < length (pieces_in workload.now proc)) users.now }
    ensures { result ≡ list_any (λ z. list_any (feeds workload.now proc z) users.now) sources.now }
{
    for source in sources {
        if feeds_any(workload, proc, *source, users) {
            return true;
        }
    }
    false
}

// Whether a piece feeds one of these.
fn feeds_any(workload: &Workload, proc: u16, source: u16, users: &[u16]) -> bool
    requires procedure { proc < length workload.now.procedures }
    requires source { source < length (pieces_in workload.now proc) }
    requires users { AllByRecursion (λ x. x < length (pieces_in workload.now proc)) users.now }
    ensures { result ≡ list_any (feeds workload.now proc source) users.now }
{
    for user in users {
        if feeds(workload, proc, source, *user) {
            return true;
        }
    }
    false
}
