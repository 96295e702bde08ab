//! Attributes by their numbers.

ghost use Rattle.std.specs.Prelude.{◌≡◌, ◌<◌, ℕ, None, Some, IfSome, slice_get};
ghost use Rattle.std.specs.Option.{option_map};
ghost use Rattle.dwz_def_reading.specs.Meanings.{without_siblings};
ghost use Rattle.dwz_def_reading.specs.Units.{entries_in};
ghost use Rattle.dwz_graph.specs.Files.{docs_of};
ghost use Rattle.dwz_graph_view.specs.AttrViews.{attr_at, form_view};
ghost use Rattle.dwz_unit.specs.Rows.{EntryRow, attr_count, rows_of, units_of};

use crate::entry_views::number_at;
use dwz_codes::DW_AT_SIBLING;
use dwz_graph::Graph;
use dwz_label_entries::number_of;
use dwz_model::Place;
use dwz_unit::{Units, Values};

/// What an attribute is besides its value (DWARF 5, 2.2 and 7.5.4 to 7.5.6).
#[derive(Clone, Copy, Debug, PartialEq, Eq)]
pub struct AttrForm {
    /// As `DW_AT_name` is 0x03.
    pub name: u16,
    /// As `DW_FORM_strp` is 0x0e.
    pub form: u16,
    /// The number that the form stores: an offset, an index or a constant; 0 where it stores bytes.
    pub raw: i128,
}

/// Which value of an entry is its attribute with a number: `DW_AT_sibling` isn't counted.
pub(crate) fn find_attr(units: &Units, entry: u32, index: u32) -> Option<u32>
    requires { entry < entries_in (units_of units.now) }
    ensures found { IfSome result (λ k. (k < attr_count (units_of units.now) entry)
        × ((row : EntryRow) → slice_get (rows_of (units_of units.now)) entry ≡ Some row
        → slice_get (without_siblings row.entry.attrs) index ≡ slice_get row.entry.attrs k)) }
    ensures none { result ≡ None → (row : EntryRow) → slice_get (rows_of (units_of units.now)) entry ≡ Some row
        → slice_get (without_siblings row.entry.attrs) index ≡ None }
{
    let count = units.entry(entry).attrs;
    let Values {
        pairs,
        cursor: _cursor,
    } = units.values(entry);
    let mut left = index;
    for k in 0..count {
        if pairs[k as usize].name != DW_AT_SIBLING {
            if left == 0 {
                return Some(k);
            }
            left -= 1;
        }
    }
    None
}

/// The attribute with a number, from 0, of the entry that begins at a place, but for its value. None exactly where there is none.
/// `DW_AT_sibling` is no attribute of a document (7.5.4).
pub fn attr_form(graph: &Graph, place: Place, index: u32) -> Option<AttrForm>
    ensures { result ≡ option_map form_view (attr_at (docs_of graph.now.given) place index) }
{
    let number = number_at(graph, place)?;
    let units = &graph.files()[place.file as usize].units;
    let k = find_attr(units, number, index)?;
    let attr = units.attr(number, k);
    Some(AttrForm {
        name: attr.pair.name,
        form: attr.pair.form as u16,
        raw: number_of(&attr.raw),
    })
}
