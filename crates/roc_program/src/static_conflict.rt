//! Static conflict between pieces: transaction chopping (TODS 1995), by table and column alone.
ghost use Rattle.std.specs.Prelude.{◌≡◌, map};
ghost use Rattle.std.specs.List.{list_any};
ghost use Rattle.roc_program.specs.Conflict as spec;
ghost use Rattle.roc_program.specs.Parts as view;

use crate::pieces::{body_of, is_view};
use crate::{Access, PieceId, Statement, Workload};

fn is_same_column(one: &Access, other: &Access) -> bool
    ensures { result ≡ spec.is_same_column (view.access one.now) (view.access other.now) }
{
    one.table == other.table && one.column == other.column
}

// Both access one column, and are not both reads.
fn collide(one: &Statement, other: &Statement) -> bool
    ensures { result ≡ spec.collide (view.statement one.now) (view.statement other.now) }
{
    match (one, other) {
        (Statement::Get(_, a), Statement::Set(b, _)) => is_same_column(a, b),
        (Statement::Set(a, _), Statement::Get(_, b)) => is_same_column(a, b),
        (Statement::Set(a, _), Statement::Set(b, _)) => is_same_column(a, b),
        _ => false,
    }
}

fn collides_with_any(one: &Statement, others: &[Statement]) -> bool
    ensures { result ≡ list_any (λ other. spec.collide (view.statement one.now) (view.statement other)) others.now }
{
    others.iter().any(|other| collide(one, other))
}

fn collide_somewhere(some: &[Statement], others: &[Statement]) -> bool
    ensures { result ≡ list_any (λ one. list_any (λ other. spec.collide (view.statement one) (view.statement other)) others.now) some.now }
{
    some.iter().any(|one| collides_with_any(one, others))
}

/// The statements of a piece that may collide with those of others: none where it is of a view, or is not there. Takes no
/// memory.
pub fn exposed(workload: &Workload, id: PieceId) -> &[Statement]
    ensures { map view.statement result.now ≡ spec.exposed workload.now id }
{
    if is_view(workload, id.proc) {
        &[]
    } else {
        body_of(workload, id)
    }
}

/// Whether two pieces conflict: both access the same table and column and at least one writes it, whatever the places and
/// ids. A piece that writes conflicts with itself, in another instance of its procedure. A piece that is not there conflicts
/// with none, and neither does a piece of a view.
pub fn conflict(workload: &Workload, one: PieceId, other: PieceId) -> bool
    ensures { result ≡ spec.are_in_conflict workload.now one other }
{
    collide_somewhere(exposed(workload, one), exposed(workload, other))
}
