//! Data flow between pieces, and their places.
ghost use Rattle.std.specs.Prelude.{◌≡◌, ◌↔◌, ◌<◌, length, IsTrue};
ghost use Rattle.std.specs.List.{list_any};
ghost use Rattle.roc_program.specs.Names as names;
ghost use Rattle.roc_program.specs.Parts as view;
ghost use Rattle.roc_program.specs.Pieces.{pieces_in, piece_of};
ghost use Rattle.roc_merge_groups.specs.Core.{AreCoLocated};
ghost use Rattle.roc_merge_groups.specs.Flow.{feeds};
ghost use Rattle.roc_merge_groups.specs.Groups.{piece_numbered};
ghost use Rattle.roc_merge_accept.specs.Inner.Uses.{is_bound_for};

use roc_program::{Access, Expression, Piece, Statement, Workload};

// Whether a name occurs in an expression.
fn uses(expression: &Expression, name: u16) -> bool
    ensures { result ≡ names.uses (view.expression expression.now) name }
{
    match expression {
        Expression::Number(_) => false,
        Expression::Value(number) => *number == name,
        Expression::Sum(first, second)
        | Expression::Difference(first, second)
        | Expression::Product(first, second)
        | Expression::Minimum(first, second)
        | Expression::Maximum(first, second)
        | Expression::Less(first, second) => uses(first, name) || uses(second, name),
        Expression::Pick(chooser, first, second) => {
            uses(chooser, name) || uses(first, name) || uses(second, name)
        }
    }
}

// Whether it occurs in one of these.
fn any_uses(expressions: &[Expression], name: u16) -> bool
    ensures { result ≡ list_any (λ e. names.uses (view.expression e) name) expressions.now }
{
    expressions.iter().any(|expression| uses(expression, name))
}

// Whether it occurs in the id of an access.
fn id_uses(access: &Access, name: u16) -> bool
    ensures { result ≡ names.id_uses (view.access access.now) name }
{
    any_uses(&access.id, name)
}

fn statement_uses(statement: &Statement, name: u16) -> bool
    ensures { result ≡ names.statement_uses (view.statement statement.now) name }
{
    match statement {
        Statement::Get(_, from) => id_uses(from, name),
        Statement::Set(to, value) => id_uses(to, name) || uses(value, name),
        Statement::Out(value) => uses(value, name),
    }
}

fn body_uses(body: &[Statement], name: u16) -> bool
    ensures { result ≡ list_any (λ s. names.statement_uses (view.statement s) name) body.now }
{
    body.iter().any(|statement| statement_uses(statement, name))
}

/// Whether a name occurs in a piece. Takes no memory.
pub fn piece_uses(piece: &Piece, name: u16) -> bool
    ensures { result ≡ names.piece_uses (view.piece piece.now) name }
{
    uses(&piece.place, name) || body_uses(&piece.body, name)
}

// Whether a piece uses the name that a statement binds.
fn is_bound_for(piece: &Piece, statement: &Statement) -> bool
    ensures { result ≡ is_bound_for (view.piece piece.now) (view.statement statement.now) }
{
    match statement {
        Statement::Get(number, _) => piece_uses(piece, *number),
        Statement::Set(..) => false,
        Statement::Out(_) => false,
    }
}

// Whether a piece uses a name that one of these statements binds.
fn uses_any(piece: &Piece, body: &[Statement]) -> bool
    ensures { result ≡ list_any (λ s. is_bound_for (view.piece piece.now) (view.statement s)) body.now }
{
    body.iter().any(|statement| is_bound_for(piece, statement))
}

fn piece_at(workload: &Workload, proc: u16, piece: u16) -> &Piece
    requires procedure { proc < length workload.now.procedures }
    requires piece { piece < length (pieces_in workload.now proc) }
    ensures { view.piece result.now ≡ piece_of workload.now (piece_numbered proc piece) }
{
    &workload.procedures()[usize::from(proc)].pieces[usize::from(piece)]
}

/// Whether one piece of a procedure uses a name that another binds. Takes no memory.
pub fn feeds(workload: &Workload, proc: u16, source: u16, user: u16) -> bool
    requires procedure { proc < length workload.now.procedures }
    requires source { source < length (pieces_in workload.now proc) }
    requires user { user < length (pieces_in workload.now proc) }
    ensures { result ≡ feeds workload.now proc source user }
{
    let user = piece_at(workload, proc, user);
    let source = piece_at(workload, proc, source);
    uses_any(user, &source.body)
}

/// Whether the place expressions of two pieces of a procedure are one tree. Takes no memory.
pub fn are_co_located(workload: &Workload, proc: u16, one: u16, other: u16) -> bool
    requires procedure { proc < length workload.now.procedures }
    requires one { one < length (pieces_in workload.now proc) }
    requires other { other < length (pieces_in workload.now proc) }
    ensures { IsTrue result ↔ AreCoLocated workload.now proc one other }
{
    let one = piece_at(workload, proc, one);
    let other = piece_at(workload, proc, other);
    one.place.is_same(&other.place)
}
