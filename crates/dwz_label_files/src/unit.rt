//! What is kept of units where labels of their tops are written.

ghost use Rattle.std.specs.Prelude.{◌<◌, length, IfOk, OnOk};
ghost use Rattle.dwz_label_files.specs.Run.{IsRun};
ghost use Rattle.dwz_label_files.specs.Unit.{AddsRows, HaveRows, IsUnitRow};
ghost use Rattle.dwz_unit.specs.Rows.{units_of};

use crate::run::Run;
use dwz_graph::{Here, here_of};
use dwz_label_entries::language_of;
use dwz_model::NoMemory;
use dwz_unit::Units;

/// What is kept of a unit.
#[derive(Clone, Copy)]
pub(crate) struct UnitRow {
    /// What its values stand in.
    pub here: Here,
    /// Its `DW_AT_language`, where that is a number (DWARF 5, 3.1.1).
    pub language: Option<i128>,
}

/// What is kept of the unit with a number.
pub(crate) fn unit_row(units: &Units, n: u32) -> UnitRow
    requires { n < length (units_of units.now) }
    ensures { IsUnitRow (units_of units.now) n result }
{
    let unit = units.unit(n);
    let here = here_of(units, n, &unit);
    let language = language_of(units, unit.first);
    UnitRow { here, language }
}

// Appends what is kept of the units of a file, in order.
fn put_unit_rows(rows: &mut Vec<UnitRow>, units: &Units) -> Result<(), NoMemory>
    ensures { OnOk result (AddsRows (units_of units.now) (length (units_of units.now)) rows.old.items rows.new.items) }
{
    for n in 0..units.len() {
        rows.push(unit_row(units, n))?;
    }
    Ok(())
}

/// What is kept of the units of all files, in order.
pub(crate) fn unit_rows(run: &Run) -> Result<Vec<UnitRow>, NoMemory>
    requires { IsRun run.now }
    ensures { IfOk result (λ rows. HaveRows run.now.files.now run.now.indexes.now (length run.now.files.now) rows.items) }
{
    let mut rows = Vec::new(run.alloc);
    for file in run.files {
        put_unit_rows(&mut rows, &file.units)?;
    }
    Ok(rows)
}
