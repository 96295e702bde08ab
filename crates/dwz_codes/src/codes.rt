//! A table of codes, and the look into it.

ghost use Rattle.std.specs.Prelude.{◌≡◌, IsTrue, length, map};
ghost use Rattle.std.specs.Option.{option_map};
ghost use Rattle.dwz_codes.specs.Rows.{ascends, row_of, view_of};

use crate::row::Row;
use std::marker::Model;

/// A table of `N` codes. Clauses see the list of its rows, each with its name as a text. Rows ascend by code, so no two
/// have the same.
#[derive(Drop)]
pub struct Codes<const N: usize> {
    rows: &'static [Row],
}

impl<const N: usize> Model for Codes<N> {
    ghost use Rattle.std.specs.Prelude.{◌≡◌, List, length, map, IsTrue};
    ghost use Rattle.dwz_codes.specs.Rows.{RowView, ascends, view_of};

    ghost Value = { List RowView };

    ghost view = { λ c. map view_of c.rows.now };

    ghost invariant = { λ c. (length c.rows.now ≡ N) × IsTrue (ascends 0 (map view_of c.rows.now)) };
}

impl<const N: usize> Codes<N> {
    /// The table of these rows.
    pub(crate) fn new(rows: &'static [Row]) -> Codes<N>
        requires count { length rows.now ≡ N }
        requires ascending { IsTrue (ascends 0 (map view_of rows.now)) }
        ensures { result ≡ map view_of rows.now }
    {
        Codes { rows }
    }

    /// The row of a code. None exactly where no row has it.
    pub fn find(&self, code: u64) -> Option<Row>
        ensures { option_map view_of result ≡ row_of self.now code }
    {
        row_in(self.rows, code)
    }
}

// The first row with a code.
fn row_in(rows: &'static [Row], code: u64) -> Option<Row>
    ensures { option_map view_of result ≡ row_of (map view_of rows.now) code }
{
    for row in rows {
        if row.code == code {
            return Some(*row);
        }
    }
    None
}
