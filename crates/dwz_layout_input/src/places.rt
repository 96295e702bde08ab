//! Where tops stand, by their numbers.

ghost use Rattle.std.specs.Prelude.{◌≡◌, ℕ, ◌+◌, List, Some, slice_get};
ghost use Rattle.dwz_def_tops.specs.Spots.{EntryName, FileUnit, Top, tops_of, units_of};
ghost use Rattle.dwz_def_reading.specs.Units.{RawUnit};
ghost use Rattle.dwz_def_reading.specs.Values.{HasSpelling};
ghost use Rattle.dwz_forms.specs.RawValues.{raw_view};
ghost use Rattle.dwz_graph.specs.declared.file.File.{File};
ghost use Rattle.dwz_graph.specs.Files.{docs_of};
ghost use Rattle.dwz_graph.specs.declared.index.TopEntry.{TopEntry};
ghost use Rattle.dwz_def_reading.specs.Meanings.{first_raw};
ghost use Rattle.dwz_layout_order.specs.Behind.{StandFirst};
ghost use Rattle.dwz_layout_input.specs.Steps.{IsPlacedAt, KnowsTops, LineIs, LineOf};
ghost use Rattle.dwz_unit.specs.Rows.{attr_view, units_of as raw_units};

use dwz_codes::{DW_AT_STMT_LIST, DW_FORM_SEC_OFFSET};
use dwz_graph::{Index, first_attr, offset_of};
use dwz_groups::Tops;
use dwz_layout::Row;
use dwz_unit::{RawAttr, Units};

// The file of a unit, if there is such a unit.
#[inline(always)]
fn file_of_unit(files_of_units: &[u32], unit: u32) -> Option<u32>
    ensures { result ≡ slice_get files_of_units.now unit }
{
    files_of_units.get(unit as usize).copied()
}

// The file of a top.
fn file_of(tops: &Tops, top: u32) -> Option<u32>
    ensures { (units : List (FileUnit EntryName)) (t : Top) → StandFirst units tops.now → slice_get (tops_of units) top ≡ Some t
        → result ≡ Some t.file }
{
    let row = tops.rows.as_slice().get(top as usize)?;
    file_of_unit(tops.files_of_units.as_slice(), row.unit)
}

// The entry of a top of a file.
fn entry_in(index: &Index, top: u32) -> Option<u32>
    ensures { (k : ℕ) (e : TopEntry) → slice_get index.now.tops k ≡ Some e → top ≡ index.now.starts.top + k → result ≡ Some e.entry }
{
    let number = top.checked_sub(index.starts().top)?;
    let top = index.tops().get(number as usize)?;
    Some(top.entry)
}

/// The file of a top, and its entry there.
pub(crate) fn place_of(indexes: &[Index], tops: &Tops, top: u32) -> Option<Row>
    ensures { (contents : List (List ℕ)) (files : List File) (t : Top) → KnowsTops contents files indexes.now tops.now
        → slice_get (tops_of (units_of (docs_of contents))) top ≡ Some t → IsPlacedAt contents files t result }
{
    let file = file_of(tops, top)?;
    let index = indexes.get(file as usize)?;
    let entry = entry_in(index, top)?;
    Some(Row { file, entry })
}

// The offset that an attribute gives. It has 4 bytes.
fn line_in(attr: &RawAttr) -> Option<u32>
    requires { HasSpelling attr.now.pair.form (raw_view attr.now.raw) }
    ensures { LineIs (attr_view attr.now) result }
{
    if attr.pair.form == DW_FORM_SEC_OFFSET {
        Some(offset_of(&attr.raw) as u32)
    } else {
        None
    }
}

/// Where the line table of the unit with a number begins, if its root names one.
pub(crate) fn line_of_unit(units: &Units, n: u32) -> Option<u32>
    ensures { (u : RawUnit) → slice_get (raw_units units.now) n ≡ Some u → LineOf (first_raw 0x10 u.root.attrs) result }
{
    if n >= units.len() {
        return None;
    }
    let root = units.unit(n).first;
    match first_attr(units, root, DW_AT_STMT_LIST) {
        None => None,
        Some(attr) => line_in(&attr),
    }
}
