//! How many of each part a workload text may have: `docs/LANGUAGE.md`, "Limits".

/// Bytes of a text.
pub const TEXT_BYTES: usize = 1_048_576;

/// Bytes of a word.
pub const WORD_BYTES: usize = 32;

/// Shards.
pub const SHARDS: u64 = 64;

/// Tables of a text.
pub const TABLES: u32 = 64;

/// Columns of a table.
pub const COLUMNS: u32 = 16;

/// Integers of an id, as a table declares them: so few at least.
pub const LEAST_ARITY: u64 = 1;

/// Integers of an id, as a table declares them: so many at most.
pub const ARITY: u64 = 4;

/// Integers in the brackets of an access or an init line, whatever the table declares: more than a text of the limit of
/// bytes can hold.
pub const IDS: u32 = 1_048_576;

/// Init lines of a text.
pub const INITS: u32 = 4_096;

/// Procedures of a text.
pub const PROCEDURES: u32 = 64;

/// Arguments of a procedure.
pub const ARGUMENTS: u32 = 8;

/// Pieces of a procedure.
pub const PIECES: u32 = 16;

/// Statements of a piece.
pub const STATEMENTS: u32 = 64;

/// Depth of an expression.
pub const DEPTH: u32 = 32;
