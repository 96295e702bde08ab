//! The row of a top that begins at a place.

ghost use Rattle.std.specs.Prelude.{◌↔◌, IsTrue, MatchOption};
ghost use Rattle.dwz_explain.specs.Found.{HasRowAt, IsRowAt, NoRowAt};

use dwz_groups::TopRow;
use dwz_model::Place;

// Whether the top of a row may move, and begins at a place.
fn is_row_at(row: &TopRow, place: Place) -> bool
    ensures { IsTrue result ↔ IsRowAt place row.now }
{
    row.movable && row.place.file == place.file && row.place.offset == place.offset
}

/// The number of the first row whose top may move and begins at a place.
pub(crate) fn find_row(rows: &[TopRow], place: Place) -> Option<usize>
    ensures { MatchOption result (NoRowAt rows.now place) (HasRowAt rows.now place) }
{
    for (number, row) in rows.iter().enumerate() {
        if is_row_at(row, place) {
            return Some(number);
        }
    }
    None
}
