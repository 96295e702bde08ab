//! Where a top stands: the language of its unit, and the names of the spaces that it stands in.

ghost use Rattle.std.specs.Prelude.{◌≡◌, ℕ, ◌<◌, ◌++◌, List, Some, Ok, IfOk, OnOk, map, slice_get};
ghost use Rattle.dwz_def_tops.specs.Spots.{SpaceName};
ghost use Rattle.dwz_def_reading.specs.TextRows.{text_number};
ghost use Rattle.dwz_label_entries.specs.Sources.{around_at, raw_of};
ghost use Rattle.dwz_label_words.specs.Known.{StaysNamed};
ghost use Rattle.dwz_def_reading.specs.Units.{RawUnit, entries_in};
ghost use Rattle.dwz_graph.specs.Chains.{AreSpacesAt};
ghost use Rattle.dwz_label.specs.Labels.{counted, each_counted, place_label};
ghost use Rattle.dwz_def_reading.specs.Documents.{Node};
ghost use Rattle.dwz_def_reading.specs.Meant.{node_meaning};
ghost use Rattle.dwz_graph.specs.Resolved.{IsHere, around, scope_in};
ghost use Rattle.dwz_def_reading.specs.Lists.{Each};
ghost use Rattle.dwz_def_tops.specs.Spaces;
ghost use Rattle.dwz_unit.specs.Rows.{EntryRow, rows_of, units_of};

use crate::FileNames;
use crate::room::Room;
use dwz_graph::{Here, InputSections, space_text};
use dwz_label::{put_counted, put_language, put_number};
use dwz_label_entries::Source;
use dwz_model::NoMemory;
use dwz_unit::Units;

// Appends the name of a space behind its length.
fn put_name<'x>(
    out: &mut Vec<u8>,
    units: &Units<'x>,
    sections: &InputSections<'x>,
    here: &Here,
    entry: u32,
) -> Result<(), NoMemory>
    requires { entry < entries_in (units_of units.now) }
    ensures { (u : RawUnit) (row : EntryRow) (d : Node ℕ) (text : List ℕ) → IsHere (units_of units.now) u here.now
        → slice_get (rows_of (units_of units.now)) entry ≡ Some row → node_meaning (scope_in sections.now (units_of units.now) u) row.entry
        ≡ Ok d → Spaces.space_text d ≡ Some text → OnOk result (out.new.items ≡ out.old.items ++ counted text) }
{
    let Some(text) = space_text(units, sections, here.offsets, entry) else {
        return Ok(());
    };
    put_counted(out, text)?;
    Ok(())
}

// Appends the names of spaces, the outermost first, behind their number.
fn put_names<'x>(
    out: &mut Vec<u8>,
    units: &Units<'x>,
    sections: &InputSections<'x>,
    here: &Here,
    spaces: &[u32],
) -> Result<(), NoMemory>
    requires { Each (λ i. i < entries_in (units_of units.now)) spaces.now }
    ensures { (u : RawUnit) (names : List SpaceName) → IsHere (units_of units.now) u here.now
        → AreSpacesAt (units_of units.now) (around sections.now (units_of units.now)) here.now.number names spaces.now
        → OnOk result (out.new.items ≡ out.old.items ++ each_counted counted (map (λ x. x.text) names)) }
{
    put_number(out, spaces.len() as u128)?;
    for space in spaces {
        put_name(out, units, sections, here, *space)?;
    }
    Ok(())
}

/// The number of the name of where a top stands: of the language of its unit, and of the names of the spaces that it stands in, whose
/// entries' numbers are `spaces`, the outermost first.
pub fn name_place(
    source: &Source,
    names: &mut FileNames,
    here: &Here,
    language: Option<i128>,
    spaces: &[u32],
    room: &mut Room,
) -> Result<u32, NoMemory>
    requires { Each (λ i. i < entries_in (raw_of source.now)) spaces.now }
    ensures stays { OnOk result (StaysNamed names.old names.new) }
    ensures told { (u : RawUnit) (list : List SpaceName) → IsHere (raw_of source.now) u here.now
        → AreSpacesAt (raw_of source.now) (around_at source.now) here.now.number list spaces.now
        → IfOk result (λ n. text_number names.new.names (place_label language (map (λ x. x.text) list)) ≡ Some n) }
{
    room.made.clear();
    put_language(&mut room.made, language)?;
    put_names(&mut room.made, source.units, source.sections, here, spaces)?;
    names.other(room.made.as_slice())
}
