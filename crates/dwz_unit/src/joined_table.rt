//! A table that was read.

ghost use Rattle.std.specs.Prelude.{◌+◌, ◌<◌, ◌^◌, length, All};
ghost use Rattle.dwz_abbrev.specs.ReadViews.{IsInRow};

use crate::tail::Tail;
use dwz_abbrev::ReadRows;
use dwz_model::Pair;

/// A table that was read. The names and forms of its declarations lie in the row of all tables.
#[derive(Drop)]
pub(crate) struct JoinedTable {
    /// Its own declarations.
    pub rows: ReadRows,
    /// Where each of them begins, in bytes from the first of the section.
    pub starts: Vec<usize>,
    /// What follows them, if anything does: the end of a table that was read before.
    pub next: Option<Tail>,
    /// The number of the first of them, among those of all tables.
    pub first: u32,
    ghost few: { first + length rows < 2 ^ 32 },
}

/// A table that was read, with the row of all tables.
#[derive(Clone, Copy)]
pub(crate) struct TableInRow<'t> {
    pub read: &'t JoinedTable,
    pub row: &'t [Pair],
    ghost within: { All (IsInRow row.now) read.now.rows },
}
