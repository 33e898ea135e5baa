//! The parts of a workload whose names are resolved: numbers stand for the names that its pieces use. `specs/Parts.antt` says
//! what each is apart from where it lies in memory.
use roc_base::Key;

/// A value that a piece computes from the names of its procedure.
#[derive(Drop)]
pub enum Expression {
    Number(i64),
    /// The value of a name, by its number: arguments first, then each `get` in program order.
    Value(u16),
    Sum(Box<Expression>, Box<Expression>),
    Difference(Box<Expression>, Box<Expression>),
    Product(Box<Expression>, Box<Expression>),
    Minimum(Box<Expression>, Box<Expression>),
    Maximum(Box<Expression>, Box<Expression>),
    /// 1 where the first is below the second, and else 0.
    Less(Box<Expression>, Box<Expression>),
    /// The second where the first is not 0, and else the third.
    Pick(Box<Expression>, Box<Expression>, Box<Expression>),
}

/// One column of the row of a table with this id, at the place of the piece.
#[derive(Drop)]
pub struct Access {
    pub table: u8,
    /// As many integers as the ids of the table have.
    pub id: Vec<Expression>,
    pub column: u8,
}

/// A step of a piece.
#[derive(Drop)]
pub enum Statement {
    /// Reads a cell into the name of this number.
    Get(u16, Access),
    /// Writes a value into a cell.
    Set(Access, Expression),
    /// Adds a value to the reply.
    Out(Expression),
}

/// A piece of a procedure: all its accesses are at its place.
#[derive(Drop)]
pub struct Piece {
    pub name: String,
    /// Whether it was declared `now`, and not `later`.
    pub is_now: bool,
    pub place: Expression,
    pub body: Vec<Statement>,
}

/// A procedure that a transaction may call.
#[derive(Drop)]
pub struct Procedure {
    pub name: String,
    /// Whether it is a view, which only reads.
    pub is_view: bool,
    /// How many arguments it takes.
    pub arguments: u16,
    /// How many names it has: its arguments and what its `get`s bind.
    pub names: u16,
    /// What these names are called, by number.
    pub labels: Vec<String>,
    pub pieces: Vec<Piece>,
}

/// A table with its columns, which keep their names for reports.
#[derive(Drop)]
pub struct Table {
    pub name: String,
    /// How many integers its ids have.
    pub arity: u8,
    pub columns: Vec<String>,
}

/// The value of a cell at the start.
#[derive(Drop)]
pub struct Init {
    pub table: u8,
    pub place: i64,
    pub id: Key,
    pub column: u8,
    pub value: i64,
}
