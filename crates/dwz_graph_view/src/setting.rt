//! Where values stand.

ghost use Rattle.std.specs.Prelude.{◌≡◌, ℕ, ◌<◌, List, Some, slice_get};
ghost use Rattle.dwz_def_reading.specs.Files.{Limits, around_of};
ghost use Rattle.dwz_def_reading.specs.Meanings.{scope_of};
ghost use Rattle.dwz_def_reading.specs.Units.{RawUnit, entries_in};
ghost use Rattle.dwz_graph.specs.Files.{IsRead};
ghost use Rattle.dwz_graph_view.specs.Settings.{IsSettingOf, IsSomeFile};
ghost use Rattle.dwz_unit.specs.Rows.{EntryRow, rows_of, units_of};

use dwz_graph::{File, Here, InputSections, here_of};
use dwz_lines::TableRows;
use std::alloc::Global;

/// A unit of a file, as what its values say is looked up there.
#[derive(Clone, Copy)]
pub(crate) struct Setting<'s, 'a> {
    pub(crate) alloc: Global,
    /// The number of the file.
    pub(crate) file: u32,
    pub(crate) sections: &'s InputSections<'a>,
    /// The line tables of the file whose rows values number, and which of them is the unit's.
    pub(crate) tables: &'s [TableRows<'a>],
    pub(crate) line: Option<usize>,
    pub(crate) here: Here,
}

/// The unit of the entry with a number, of the file with a number.
pub(crate) fn setting_of<'s, 'a>(
    alloc: Global,
    number: u32,
    file: &'s File<'a>,
    entry: u32,
) -> Setting<'s, 'a>
    requires file { IsSomeFile file.now }
    requires entry { entry < entries_in (units_of file.now.units) }
    ensures { (l : Limits) (k : ℕ) (bytes : List ℕ) (row : EntryRow) (u : RawUnit) → IsRead l k bytes file.now
        → slice_get (rows_of (units_of file.now.units)) entry ≡ Some row → slice_get (units_of file.now.units) row.unit ≡ Some u
        → IsSettingOf result number row.entry (scope_of (around_of bytes (units_of file.now.units)) u) }
{
    let unit = file.units.entry(entry).unit;
    Setting {
        alloc,
        file: number,
        sections: &file.sections,
        tables: file.resolved.tables.as_slice(),
        line: file.resolved.lines[unit as usize],
        here: here_of(&file.units, unit, &file.units.unit(unit)),
    }
}
