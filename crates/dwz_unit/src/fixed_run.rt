//! Values that are passed over at once.

ghost use Rattle.std.specs.Prelude.{◌≡◌, ◌<◌, ◌+◌, List, Some, length, slice_get};
ghost use Rattle.dwz_model.specs.declared.place.Pair.{Pair};
ghost use Rattle.dwz_unit.specs.FixedRuns.{IsRun, TellRuns};
ghost use Rattle.dwz_unit.specs.Found.{StandsIn};
ghost use Rattle.dwz_unit.specs.RowViews.{in_row};

use crate::joined_table::TableInRow;
use dwz_forms::{FormSet, size_among};
use dwz_model::{NoMemory, Pair};

// No more values are passed over at once.
const LONGEST: u16 = 255;

/// The first values of an entry, as many as have lengths that their forms tell, of the forms of a file by itself.
#[derive(Clone, Copy)]
pub(crate) struct FixedRun {
    /// How many they are.
    pub count: u16,
    /// How many bytes they have in all.
    pub bytes: u16,
}

// Those of an entry with these names and forms.
fn run_of(pairs: &[Pair]) -> FixedRun
    ensures { IsRun pairs.now result }
{
    let mut count = 0;
    let mut bytes = 0;
    for pair in pairs {
        let Some(size) = size_among(FormSet::Own, pair.form) else {
            return FixedRun { count, bytes };
        };
        if count == LONGEST {
            return FixedRun { count, bytes };
        }
        count += 1;
        bytes += size as u16;
    }
    FixedRun { count, bytes }
}

// The names and forms of a table's own declaration at a place.
fn pairs_at<'t>(table: TableInRow<'t>, place: usize) -> &'t [Pair]
    requires { place < length table.read.now.rows }
    ensures { (decls : List (List Pair)) → StandsIn decls (in_row table.entry) → slice_get decls (table.entry.read.now.first + place) ≡ Some result.now }
{
    let decl = &table.read.rows.as_slice()[place];
    &table.row[decl.first..decl.first + decl.count]
}

// Appends the run of the declaration with a number, if those of all before it are there.
fn put_run(number: usize, pairs: &[Pair], runs: &mut Vec<FixedRun>) -> Result<(), NoMemory>
    ensures { (decls : List (List Pair)) → slice_get decls number ≡ Some pairs.now → TellRuns decls runs.old.items → TellRuns decls runs.new.items }
{
    if number != runs.len() {
        return Ok(());
    }
    runs.push(run_of(pairs))?;
    Ok(())
}

/// Appends the runs of a table's own declarations behind those whose runs are there.
pub(crate) fn put_runs_in(table: TableInRow, runs: &mut Vec<FixedRun>) -> Result<(), NoMemory>
    ensures { (decls : List (List Pair)) → StandsIn decls (in_row table.entry) → TellRuns decls runs.old.items → TellRuns decls runs.new.items }
{
    for place in 0..table.read.rows.len() {
        put_run(
            table.read.first as usize + place,
            pairs_at(table, place),
            runs,
        )?;
    }
    Ok(())
}
