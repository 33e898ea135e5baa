//! The free rows, and which of them is taken next.
ghost use Rattle.std.specs.Prelude.{◌≡◌, ◌<◌, true, length};
ghost use Rattle.std.specs.Vec.{vec_capacity, vec_len};
ghost use Rattle.roc_server_rows.specs.Inner.Rows.{IsPlaced};
ghost use Rattle.roc_server_rows.specs.Rows.{row_in};

use crate::rows::Row;

// What stands at the end of a chain. No row has this number.
const END: usize = usize::MAX;

/// The first rows of two chains of free rows, which go on by `next` of a row. Rows are taken from the one, and a row that ends comes to the other,
/// which takes its place once it is empty and a quarter of all rows have ended. So numbers come back many at once, and there are at most a third more
/// rows than were ever in use at one time. Nothing is assumed of a chain: a row is taken only where it is free.
#[derive(Clone, Copy)]
pub(crate) struct FreeRows {
    pub(crate) next: usize,
    pub(crate) ended: usize,
    /// How many have ended since the chains were last exchanged.
    pub(crate) many: usize,
}

/// There are none.
pub(crate) fn no_free() -> FreeRows {
    FreeRows {
        next: END,
        ended: END,
        many: 0,
    }
}

/// Puts a row where one is free, or behind the others, where there is room.
pub(crate) fn place(rows: &mut Vec<Row>, free: &mut FreeRows, row: Row) -> usize
    requires { vec_len rows.old < vec_capacity rows.old }
    ensures { IsPlaced rows.old.items rows.new.items row result }
{
    if !is_free(rows, free.next) && free.many >= rows.len() / 4 {
        *free = FreeRows {
            next: free.ended,
            ended: END,
            many: 0,
        };
    }
    let at = free.next;
    if is_free(rows, at) {
        free.next = rows[at].next;
        rows[at] = row;
        return at;
    }
    let at = rows.len();
    rows.push(row).unwrap();
    at
}

// Whether there is a row at a number, and it is free.
fn is_free(rows: &[Row], at: usize) -> bool
    ensures within { result ≡ true → at < length rows.now }
    ensures free { result ≡ true → (row_in rows.now at).birth ≡ 0 }
{
    match rows.get(at) {
        Some(row) => row.birth == 0,
        None => false,
    }
}
