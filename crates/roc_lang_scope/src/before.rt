//! What stands before a place of a procedure, and the names that are bound there.

ghost use Rattle.std.specs.Prelude.{◌≡◌, ◌++◌, map};
ghost use Rattle.std.specs.List.{flat_map};
ghost use Rattle.roc_lang.specs.Tree.{name_tree, expression_tree, statement_tree, piece_tree};
ghost use Rattle.roc_lang.specs.Scope.{is_among, bound_by, use_faults, names_of, key_faults};
ghost use Rattle.roc_lang_scope.specs.Inner.Before.{now_names, later_names, bound};
ghost use Rattle.roc_lang_scope.specs.Inner.Misuse.{Finds};

use crate::misuse::{Misuse, Reason, at_name};
use roc_lang::{Expression, Name, Piece, Statement};

/// What stands before a statement, or before a piece where no statement of it stands here.
#[derive(Clone, Copy)]
pub(crate) struct Before<'a> {
    pub arguments: &'a [Name],
    /// The whole pieces before.
    pub pieces: &'a [Piece],
    /// The statements before, of the same piece.
    pub body: &'a [Statement],
}

/// The piece that a statement stands in.
#[derive(Clone, Copy)]
pub(crate) struct Within<'a> {
    /// Its procedure is a view.
    pub is_view: bool,
    /// Its name.
    pub piece: &'a Name,
}

/// One of the names is this.
pub(crate) fn is_among(names: &[Name], name: &Name) -> bool
    ensures { result ≡ is_among (map name_tree names.now) (name_tree name.now) }
{
    for earlier in names {
        if earlier.text == name.text {
            return true;
        }
    }
    false
}

fn binds(statement: &Statement, name: &Name) -> bool
    ensures { result ≡ is_among (bound_by (statement_tree statement.now)) (name_tree name.now) }
{
    match statement {
        Statement::Get {
            name: bound,
            from: _,
        } => bound.text == name.text,
        Statement::Set {
            line: _,
            to: _,
            value: _,
        } => false,
        Statement::Out(_) => false,
    }
}

// One of the statements binds the name.
fn is_bound(body: &[Statement], name: &Name) -> bool
    ensures { result ≡ is_among (flat_map bound_by (map statement_tree body.now)) (name_tree name.now) }
{
    for statement in body {
        if binds(statement, name) {
            return true;
        }
    }
    false
}

// One of the pieces that were declared now binds the name.
fn is_bound_now(pieces: &[Piece], name: &Name) -> bool
    ensures { result ≡ is_among (now_names (map piece_tree pieces.now)) (name_tree name.now) }
{
    for piece in pieces {
        if piece.is_now && is_bound(&piece.body, name) {
            return true;
        }
    }
    false
}

// One of the pieces that were declared later binds the name.
fn is_bound_later(pieces: &[Piece], name: &Name) -> bool
    ensures { result ≡ is_among (later_names (map piece_tree pieces.now)) (name_tree name.now) }
{
    for piece in pieces {
        if !piece.is_now && is_bound(&piece.body, name) {
            return true;
        }
    }
    false
}

/// The name is bound before.
pub(crate) fn is_taken(before: &Before, name: &Name) -> bool
    ensures { let here = bound before.now in
        result ≡ is_among (here.known ++ here.own ++ here.past) (name_tree name.now) }
{
    is_among(before.arguments, name)
        || is_bound_now(before.pieces, name)
        || is_bound(before.body, name)
        || is_bound_later(before.pieces, name)
}

// A name of a key or of a value.
fn check_use<'a>(before: &Before, is_key: bool, name: &'a Name) -> Result<(), Misuse<'a>>
    ensures { Finds result (use_faults (bound before.now) is_key (name_tree name.now)) }
{
    if is_among(before.arguments, name) || is_bound_now(before.pieces, name) {
        return Ok(());
    }
    let reason = if is_bound(before.body, name) {
        if !is_key {
            return Ok(());
        }
        Reason::SamePieceKey
    } else if is_bound_later(before.pieces, name) {
        Reason::LaterUsed
    } else {
        Reason::Unbound
    };
    Err(at_name(reason, name))
}

/// The names of an expression, from left to right.
pub(crate) fn check_expression<'a>(
    before: &Before,
    is_key: bool,
    expression: &'a Expression,
) -> Result<(), Misuse<'a>>
    ensures { Finds result (flat_map (use_faults (bound before.now) is_key) (names_of (expression_tree expression.now))) }
{
    match expression {
        Expression::Number(_) => Ok(()),
        Expression::Variable(name) => check_use(before, is_key, name),
        Expression::Sum(first, second)
        | Expression::Difference(first, second)
        | Expression::Product(first, second)
        | Expression::Minimum(first, second)
        | Expression::Maximum(first, second)
        | Expression::Less(first, second) => {
            check_expression(before, is_key, first)?;
            check_expression(before, is_key, second)
        }
        Expression::Pick(chooser, first, second) => {
            check_expression(before, is_key, chooser)?;
            check_expression(before, is_key, first)?;
            check_expression(before, is_key, second)
        }
    }
}

/// The integers of an id, from left to right.
pub(crate) fn check_id<'a>(before: &Before, id: &'a [Expression]) -> Result<(), Misuse<'a>>
    ensures { Finds result (flat_map (key_faults (bound before.now)) (map expression_tree id.now)) }
{
    for integer in id {
        check_expression(before, true, integer)?;
    }
    Ok(())
}
