//! The parts of the syntax tree of a workload text. `specs/Tree.antt` says what each is apart from where it lies in memory.

/// A name where it stands: `line` counts from 1.
#[derive(Drop)]
pub struct Name {
    pub text: String,
    pub line: u32,
}

/// A value of 64 bits. Parentheses leave no trace in it.
#[derive(Drop)]
pub enum Expression {
    /// An integer.
    Number(i64),
    /// The value of an argument, or of a name that a `get` bound.
    Variable(Name),
    /// The first and the second, added; like the next two it wraps.
    Sum(Box<Expression>, Box<Expression>),
    /// The first less the second.
    Difference(Box<Expression>, Box<Expression>),
    /// The first times the second.
    Product(Box<Expression>, Box<Expression>),
    /// The lesser of the two.
    Minimum(Box<Expression>, Box<Expression>),
    /// The greater of the two.
    Maximum(Box<Expression>, Box<Expression>),
    /// 1 where the first is below the second, else 0.
    Less(Box<Expression>, Box<Expression>),
    /// The second where the first is not 0, else the third.
    Pick(Box<Expression>, Box<Expression>, Box<Expression>),
}

/// One column of the row of a table with this id, at the place of the piece.
#[derive(Drop)]
pub struct Access {
    /// The table's name, where it is written.
    pub table: Name,
    /// The integers of the id, as many as are written; scope asks for as many as the table declares.
    pub id: Vec<Expression>,
    /// The line of the bracket that closes the id.
    pub id_line: u32,
    pub column: Name,
}

/// A step of a piece.
#[derive(Drop)]
pub enum Statement {
    /// Binds a name to the value of a cell.
    Get {
        name: Name,
        from: Access,
    },
    /// Writes a value into a cell. `line` is that of the word `set`.
    Set {
        line: u32,
        to: Access,
        value: Expression,
    },
    /// Adds a value to the reply.
    Out(Expression),
}

/// A part of a procedure that runs on one shard, that of its place.
#[derive(Drop)]
pub struct Piece {
    /// Declared `now`, and not `later`.
    pub is_now: bool,
    /// The line of the word `now` or `later`.
    pub class_line: u32,
    pub name: Name,
    pub place: Expression,
    pub body: Vec<Statement>,
}

/// What a transaction calls: it runs its pieces as if in the order of the text.
#[derive(Drop)]
pub struct Procedure {
    pub name: Name,
    pub arguments: Vec<Name>,
    /// Declared `view`: scope asks that its pieces are all `later`, and have no `set`.
    pub is_view: bool,
    pub pieces: Vec<Piece>,
}

/// A table: its rows are told apart by their place and their id.
#[derive(Drop)]
pub struct Table {
    pub name: Name,
    /// How many integers an id has.
    pub arity: u64,
    pub columns: Vec<Name>,
}

/// The value of a cell at the start.
#[derive(Drop)]
pub struct Init {
    /// The table's name, where it is written.
    pub table: Name,
    /// The place of the row, which says on which shard it lies.
    pub place: i64,
    /// The integers of the id, as many as are written; scope asks for as many as the table declares.
    pub id: Vec<i64>,
    /// The line of the bracket that closes the id.
    pub id_line: u32,
    pub column: Name,
    pub value: i64,
}
