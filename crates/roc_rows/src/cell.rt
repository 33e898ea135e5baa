//! One number of the database.
use roc_base::Key;

/// One column of one row. A row is named by its table, its place, which says the shard that holds
/// it, and its id. Tables and columns are named by number. Cells are ordered by table, place, id
/// and column.
#[derive(Clone, Copy, Debug, PartialEq, Eq, PartialOrd, Ord, Hash)]
pub struct Cell {
    pub table: u8,
    pub place: i64,
    pub id: Key,
    pub column: u8,
}
