//! What a file names, or its first fault.

ghost use Rattle.std.specs.Prelude.{◌≡◌, ◌^◌, ◌<◌, length, map, IfOk};
ghost use Rattle.dwz_def_reading.specs.Faults.{Answers};
ghost use Rattle.dwz_def_reading.specs.Units.{entries_in};
ghost use Rattle.dwz_def_reading.specs.NamedLists.{lists_of_units};
ghost use Rattle.dwz_def_reading.specs.Shared.{AreRows};
ghost use Rattle.dwz_graph_resolve.specs.ListRows.{AreOfFile, operand_view};
ghost use Rattle.dwz_graph_resolve.specs.Named.{map_ok, units_refs};
ghost use Rattle.dwz_graph_resolve.specs.Parts.{AreParted, HaveLines};
ghost use Rattle.dwz_graph_resolve.specs.Said.{said};
ghost use Rattle.dwz_graph_resolve.specs.Stretches.{IsWhole};
ghost use Rattle.dwz_graph_resolve.specs.Surroundings.{AreAmong, around_in, common_view, entries_among, place_among};
ghost use Rattle.dwz_unit.specs.Rows.{units_of};

use crate::operands::ListOperand;
use crate::ranges::check_ranges;
use crate::shared::unshared_operands;
use crate::stretches::{Stretch, read_all, read_by_workers};
use crate::surroundings::Surroundings;
use dwz_lines::TableRows;
use dwz_model::ReadErr;
use dwz_unit::Units;
use std::alloc::Global;
use std::thread::Threads;

/// What the values of a file name.
#[derive(Drop)]
pub struct Resolved<'a> {
    /// For each reference of the units, in preorder, then in the order of attributes, then of the operands of an expression, the
    /// number of the entry that it names. The entries of a common file have the numbers behind those of the file's own. The operands of
    /// location lists aren't among them.
    pub refs: Vec<u32>,
    /// Where the numbers begin in `refs` of the entries that each entry names, and behind the last entry where they end: those of the
    /// i-th are `refs[starts[i]..starts[i + 1]]`.
    pub starts: Vec<u32>,
    /// The line tables whose files are numbered, each once; where several workers read, once for each stretch of units that names it.
    pub tables: Vec<TableRows<'a>>,
    /// For each unit the number of its line table in `tables`, where a value of its entries is the number of a file of that one.
    pub lines: Vec<Option<usize>>,
    /// The operands of the location lists that attributes name, each once, in order of place.
    pub operands: Vec<ListOperand>,
}

// What a file names of which the values of all units were read. Refused with the first fault of its address ranges, else with that of
// shared lists.
fn finish<'a>(
    alloc: Global,
    file: u32,
    units: &Units,
    around: &Surroundings<'a, '_>,
    whole: Stretch<'a>,
) -> Result<Resolved<'a>, ReadErr>
    requires { IsWhole around.now (units_of units.now) file whole }
    ensures within { IfOk result (λ r. AreAmong (common_view around.now.common) (units_of units.now) r.refs.items) }
    ensures operands { IfOk result (λ r. AreRows (lists_of_units (around_in around.now (units_of units.now)) (units_of units.now))
        (map (operand_view (units_of units.now)) r.operands.items)) }
    ensures of_file { IfOk result (λ r. AreOfFile (units_of units.now) file r.operands.items) }
    ensures starts { IfOk result (λ r. AreParted (around_in around.now (units_of units.now)) (units_of units.now)
        (entries_in (units_of units.now)) r.refs.items r.starts.items) }
    ensures lines { IfOk result (λ r. HaveLines (around_in around.now (units_of units.now)) (units_of units.now)
        (length (units_of units.now)) r.tables.items r.lines.items) }
    ensures answers { Answers (λ r. map (place_among (common_view around.now.common) (units_of units.now)) r.refs.items) result
        (map_ok units_refs (said (around_in around.now (units_of units.now)) (units_of units.now) around.now.sections.aranges.now)) }
{
    // Each reference has a byte of it at least, so 4 bytes are enough for where those of an entry begin.
    let info = units.info();
    prove!(info.len() <= u32::MAX as usize);
    let _file = file;
    check_ranges(units, around.sections.aranges)?;
    let operands = unshared_operands(alloc, &whole.lists)?;
    Ok(Resolved {
        refs: whole.refs,
        starts: whole.starts,
        tables: whole.tables,
        lines: whole.lines,
        operands,
    })
}

/// Reads what the values of all units of a file say, each of its sets of address ranges, and its location lists. Refused with the first
/// fault of the meanings, else of the address ranges, else with that of shared lists. `file` is the number of the file, which the places
/// of operands get. All entries have numbers of 4 bytes, with those of a common file beside which it is read.
pub fn resolve<'a>(
    alloc: Global,
    file: u32,
    units: &Units,
    around: &Surroundings<'a, '_>,
) -> Result<Resolved<'a>, ReadErr>
    requires room { entries_among (common_view around.now.common) (units_of units.now) < 2 ^ 32 }
    ensures within { IfOk result (λ r. AreAmong (common_view around.now.common) (units_of units.now) r.refs.items) }
    ensures operands { IfOk result (λ r. AreRows (lists_of_units (around_in around.now (units_of units.now)) (units_of units.now))
        (map (operand_view (units_of units.now)) r.operands.items)) }
    ensures of_file { IfOk result (λ r. AreOfFile (units_of units.now) file r.operands.items) }
    ensures starts { IfOk result (λ r. AreParted (around_in around.now (units_of units.now)) (units_of units.now)
        (entries_in (units_of units.now)) r.refs.items r.starts.items) }
    ensures lines { IfOk result (λ r. HaveLines (around_in around.now (units_of units.now)) (units_of units.now)
        (length (units_of units.now)) r.tables.items r.lines.items) }
    ensures answers { Answers (λ r. map (place_among (common_view around.now.common) (units_of units.now)) r.refs.items) result
        (map_ok units_refs (said (around_in around.now (units_of units.now)) (units_of units.now) around.now.sections.aranges.now)) }
{
    let whole = read_all(alloc, file, units, around)?;
    finish(alloc, file, units, around, whole)
}

/// The same by so many workers: each reads what the values of a stretch of units say.
pub fn resolve_by<'a, R: Threads + Sync>(
    rt: &R,
    alloc: Global,
    file: u32,
    units: &Units,
    around: &Surroundings<'a, '_>,
    workers: u32,
) -> Result<Resolved<'a>, ReadErr>
    requires room { entries_among (common_view around.now.common) (units_of units.now) < 2 ^ 32 }
    ensures within { IfOk result (λ r. AreAmong (common_view around.now.common) (units_of units.now) r.refs.items) }
    ensures operands { IfOk result (λ r. AreRows (lists_of_units (around_in around.now (units_of units.now)) (units_of units.now))
        (map (operand_view (units_of units.now)) r.operands.items)) }
    ensures of_file { IfOk result (λ r. AreOfFile (units_of units.now) file r.operands.items) }
    ensures starts { IfOk result (λ r. AreParted (around_in around.now (units_of units.now)) (units_of units.now)
        (entries_in (units_of units.now)) r.refs.items r.starts.items) }
    ensures lines { IfOk result (λ r. HaveLines (around_in around.now (units_of units.now)) (units_of units.now)
        (length (units_of units.now)) r.tables.items r.lines.items) }
    ensures answers { Answers (λ r. map (place_among (common_view around.now.common) (units_of units.now)) r.refs.items) result
        (map_ok units_refs (said (around_in around.now (units_of units.now)) (units_of units.now) around.now.sections.aranges.now)) }
{
    let whole = read_by_workers(rt, alloc, file, units, around, workers)?;
    finish(alloc, file, units, around, whole)
}
