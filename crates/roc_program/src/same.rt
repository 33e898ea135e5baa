//! Whether two parts of workloads are of one text.
ghost use Rattle.std.specs.Prelude.{◌≡◌, ◌↔◌, IsTrue, map};
ghost use Rattle.roc_program.specs.Parts as view;
ghost use Rattle.roc_program.specs.Parts.{expression, access, statement, piece, procedure, table, init};

use crate::{Access, Expression, Init, Piece, Procedure, Statement, Table};

// What can be compared in lists.
trait Compared {
    // What is compared of it.
    ghost Text: { Type 0 };

    ghost text: { Self → Text };

    fn is_as(&self, other: &Self) -> bool
        ensures { IsTrue result ↔ (text self.now ≡ text other.now) };
}

impl Expression {
    /// Whether two expressions are one tree. Takes no memory.
    pub fn is_same(&self, other: &Expression) -> bool
        ensures { IsTrue result ↔ (expression self.now ≡ expression other.now) }
    {
        match (self, other) {
            (Expression::Number(one), Expression::Number(other)) => one == other,
            (Expression::Value(one), Expression::Value(other)) => one == other,
            (Expression::Sum(a, b), Expression::Sum(c, d)) => a.is_same(c) && b.is_same(d),
            (Expression::Difference(a, b), Expression::Difference(c, d)) => {
                a.is_same(c) && b.is_same(d)
            }
            (Expression::Product(a, b), Expression::Product(c, d)) => a.is_same(c) && b.is_same(d),
            (Expression::Minimum(a, b), Expression::Minimum(c, d)) => a.is_same(c) && b.is_same(d),
            (Expression::Maximum(a, b), Expression::Maximum(c, d)) => a.is_same(c) && b.is_same(d),
            (Expression::Less(a, b), Expression::Less(c, d)) => a.is_same(c) && b.is_same(d),
            (Expression::Pick(a, b, c), Expression::Pick(d, e, f)) => {
                a.is_same(d) && b.is_same(e) && c.is_same(f)
            }
            _ => false,
        }
    }
}

impl Access {
    /// Whether two accesses are of one text: the same table and column, by number, and ids of the same trees. Takes no memory.
    pub fn is_same(&self, other: &Access) -> bool
        ensures { IsTrue result ↔ (access self.now ≡ access other.now) }
    {
        self.table == other.table && are_same(&self.id, &other.id) && self.column == other.column
    }
}

impl Statement {
    /// Whether two statements are of one text: the same kind, name by number, access and value. Takes no memory.
    pub fn is_same(&self, other: &Statement) -> bool
        ensures { IsTrue result ↔ (statement self.now ≡ statement other.now) }
    {
        match (self, other) {
            (Statement::Get(a, b), Statement::Get(c, d)) => a == c && b.is_same(d),
            (Statement::Set(a, b), Statement::Set(c, d)) => a.is_same(c) && b.is_same(d),
            (Statement::Out(a), Statement::Out(b)) => a.is_same(b),
            _ => false,
        }
    }
}

impl Piece {
    /// Whether two pieces are of one text: the same name, both `now` or both `later`, and the same place and statements. Takes no memory.
    pub fn is_same(&self, other: &Piece) -> bool
        ensures { IsTrue result ↔ (piece self.now ≡ piece other.now) }
    {
        self.name == other.name
            && self.is_now == other.is_now
            && self.place.is_same(&other.place)
            && are_same(&self.body, &other.body)
    }
}

impl Procedure {
    /// Whether two procedures are of one text: the same name, both views or none, the same names of arguments and of what `get`s bind, and
    /// the same pieces. Lines, spaces, comments and parentheses are no part of it. Takes no memory.
    pub fn is_same(&self, other: &Procedure) -> bool
        ensures { IsTrue result ↔ (procedure self.now ≡ procedure other.now) }
    {
        self.name == other.name
            && self.is_view == other.is_view
            && self.arguments == other.arguments
            && self.names == other.names
            && are_same(&self.labels, &other.labels)
            && are_same(&self.pieces, &other.pieces)
    }
}

impl Table {
    /// Whether two tables are of one text: the same name, ids of as many integers, and the same columns in order. Takes no memory.
    pub fn is_same(&self, other: &Table) -> bool
        ensures { IsTrue result ↔ (table self.now ≡ table other.now) }
    {
        self.name == other.name
            && self.arity == other.arity
            && are_same(&self.columns, &other.columns)
    }
}

impl Init {
    /// Whether two init lines are of one text: the same cell, by numbers, and the same value. Takes no memory.
    pub fn is_same(&self, other: &Init) -> bool
        ensures { IsTrue result ↔ (init self.now ≡ init other.now) }
    {
        if self.id != other.id {
            return false;
        }
        if self.place != other.place || self.value != other.value {
            return false;
        }
        self.table == other.table && self.column == other.column
    }
}

impl Compared for String {
    ghost use Rattle.std.specs.Prelude.{ℕ, List};
    ghost use Rattle.std.specs.String.{string_bytes};

    ghost Text = { List ℕ };

    ghost text = { string_bytes };

    fn is_as(&self, other: &String) -> bool {
        self == other
    }
}

impl Compared for Expression {
    ghost use Rattle.roc_program.specs.Program as pure;

    ghost Text = { pure.Expression };

    ghost text = { expression };

    fn is_as(&self, other: &Expression) -> bool {
        self.is_same(other)
    }
}

impl Compared for Statement {
    ghost use Rattle.roc_program.specs.Program as pure;

    ghost Text = { pure.Statement };

    ghost text = { statement };

    fn is_as(&self, other: &Statement) -> bool {
        self.is_same(other)
    }
}

impl Compared for Piece {
    ghost use Rattle.roc_program.specs.Program as pure;

    ghost Text = { pure.Piece };

    ghost text = { piece };

    fn is_as(&self, other: &Piece) -> bool {
        self.is_same(other)
    }
}

// Whether two lists are of one text, one by one.
fn are_same<T: Compared>(some: &[T], others: &[T]) -> bool
    ensures { IsTrue result ↔ (map T.text some.now ≡ map T.text others.now) }
{
    if some.len() != others.len() {
        return false;
    }
    for at in 0..some.len() {
        if !some[at].is_as(&others[at]) {
            return false;
        }
    }
    true
}
