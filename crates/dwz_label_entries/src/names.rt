//! The names of the spaces that a top stands in.

ghost use Rattle.std.specs.Prelude.{◌≡◌, ℕ, ◌<◌, ◌++◌, List, Some, Ok, OnOk, map, slice_get};
ghost use Rattle.dwz_def_tops.specs.Spots.{SpaceName};
ghost use Rattle.dwz_def_reading.specs.Units.{RawUnit, entries_in};
ghost use Rattle.dwz_graph.specs.Chains.{AreSpacesAt};
ghost use Rattle.dwz_label.specs.Labels.{counted, each_counted};
ghost use Rattle.dwz_def_reading.specs.Documents.{Node};
ghost use Rattle.dwz_def_reading.specs.Meant.{node_meaning};
ghost use Rattle.dwz_graph.specs.Resolved.{IsHere, around, scope_in};
ghost use Rattle.dwz_def_reading.specs.Lists.{Each};
ghost use Rattle.dwz_def_tops.specs.Spaces;
ghost use Rattle.dwz_unit.specs.Rows.{EntryRow, rows_of, units_of};

use dwz_graph::{Here, InputSections, space_text};
use dwz_label::{put_counted, put_number};
use dwz_model::NoMemory;
use dwz_unit::Units;

// Appends the name of a space behind its length.
fn put_name<'x>(
    out: &mut Vec<u8>,
    units: &Units<'x>,
    sections: &InputSections<'x>,
    here: &Here,
    entry: u32,
) -> Result<(), NoMemory>
    requires { entry < entries_in (units_of units.now) }
    ensures { (u : RawUnit) (row : EntryRow) (d : Node ℕ) (text : List ℕ) → IsHere (units_of units.now) u here.now
        → slice_get (rows_of (units_of units.now)) entry ≡ Some row → node_meaning (scope_in sections.now (units_of units.now) u) row.entry
        ≡ Ok d → Spaces.space_text d ≡ Some text → OnOk result (out.new.items ≡ out.old.items ++ counted text) }
{
    let Some(text) = space_text(units, sections, here.offsets, entry) else {
        return Ok(());
    };
    put_counted(out, text)?;
    Ok(())
}

/// Appends the names of spaces, the outermost first, behind their number.
pub(crate) fn put_names<'x>(
    out: &mut Vec<u8>,
    units: &Units<'x>,
    sections: &InputSections<'x>,
    here: &Here,
    spaces: &[u32],
) -> Result<(), NoMemory>
    requires { Each (λ i. i < entries_in (units_of units.now)) spaces.now }
    ensures { (u : RawUnit) (names : List SpaceName) → IsHere (units_of units.now) u here.now
        → AreSpacesAt (units_of units.now) (around sections.now (units_of units.now)) here.now.number names spaces.now
        → OnOk result (out.new.items ≡ out.old.items ++ each_counted counted (map (λ x. x.text) names)) }
{
    put_number(out, spaces.len() as u128)?;
    for space in spaces {
        put_name(out, units, sections, here, *space)?;
    }
    Ok(())
}
