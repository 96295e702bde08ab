//! The tops of files, and behind them those of a finished common file.

ghost use Rattle.std.specs.Prelude.{◌≡◌, ℕ, ◌+◌, ◌-◌, ◌<◌, ◌≤◌, ◌^◌, ◌++◌, List, [], All, drop, false, length, map, replicate, IfOk, OnOk};
ghost use Rattle.std.specs.List.{range_with_len};
ghost use Rattle.dwz_def_reading.specs.Documents.{Doc};
ghost use Rattle.dwz_def_reading.specs.Units.{entries_in};
ghost use Rattle.dwz_match.specs.Parts.{edge_to, start_in};
ghost use Rattle.dwz_layout_input.specs.Behind.{StandBehind, units_from};
ghost use Rattle.dwz_layout_input.specs.PlannedOver.{IsOutlineOver};
ghost use Rattle.dwz_takes.specs.Steps.{edges_from};
ghost use Rattle.dwz_unit.specs.Rows.{units_of};

use dwz_check_index::{CrossIndex, UnitStart};
use dwz_graph::File;
use dwz_groups::{Edge, Groups, TopRow, TopRows, Tops, group};
use dwz_model::{NoMemory, Numbers, Place};
use std::alloc::Global;

// Where the tops of the unit with a number begin, or `end` behind all units.
fn start_of(starts: &[UnitStart], end: u32, number: usize) -> u32
    ensures { result ≡ start_in end (drop number (map (λ s. s.top) starts.now)) }
{
    match starts.get(number) {
        Some(start) => start.top,
        None => end,
    }
}

// Adds a unit, once for each number from one to before another.
fn put_unit(units: &mut Vec<u32>, unit: u32, from: u32, to: u32) -> Result<(), NoMemory>
    ensures { OnOk result (units.new.items ≡ units.old.items ++ replicate (to - from) unit) }
{
    for _top in from..to {
        units.push(unit)?;
    }
    Ok(())
}

/// The units of tops, in order: where the tops of each unit begin there, and all end before `end`. The first unit has that number.
pub(crate) fn units_of_tops(
    alloc: Global,
    starts: &[UnitStart],
    end: u32,
    unit: u32,
) -> Result<Vec<u32>, NoMemory>
    requires { unit + length starts.now < 2 ^ 32 }
    ensures { IfOk result (λ units. units.items ≡ units_from end unit (map (λ s. s.top) starts.now)) }
{
    let mut units = Vec::new(alloc);
    for number in 0..starts.len() {
        let from = start_of(starts, end, number);
        let to = start_of(starts, end, number + 1);
        put_unit(&mut units, unit + number as u32, from, to)?;
    }
    Ok(units)
}

/// Rows of the tops of a common file, which has that number: these have their units. None of them may move.
pub(crate) fn rows_behind(
    alloc: Global,
    common: &File,
    index: &CrossIndex,
    file: u32,
    units: &[u32],
) -> Result<Vec<TopRow>, NoMemory>
    requires many { length units.now ≡ length index.now.tops }
    requires there { All (λ x. x.entry < entries_in (units_of common.now.units)) index.now.tops }
    ensures units { IfOk result (λ rows. map (λ row. row.unit) rows.items ≡ units.now) }
    ensures still { IfOk result (λ rows. All (λ row. row.movable ≡ false) rows.items) }
{
    let mut rows = Vec::new(alloc);
    for (number, top) in index.tops().iter().enumerate() {
        let offset = common.units.entry(top.entry).at;
        rows.push(TopRow {
            place: Place { file, offset },
            unit: units[number],
            weight: 0,
            movable: false,
            pinned: false,
        })?;
    }
    Ok(rows)
}

// Adds an edge from a top to each of its targets.
fn put_edges(edges: &mut Vec<Edge>, top: u32, targets: &[u32]) -> Result<(), NoMemory>
    ensures { OnOk result (edges.new.items ≡ edges.old.items ++ map (edge_to top) targets.now) }
{
    for target in targets {
        edges.push(Edge {
            key: top,
            value: *target,
        })?;
    }
    Ok(())
}

// An edge from each top to each of its targets.
fn edges_of(alloc: Global, targets: &Groups) -> Result<Vec<Edge>, NoMemory>
    requires { length targets.now < 2 ^ 32 }
    ensures { IfOk result (λ edges. edges.items ≡ edges_from edge_to 0 targets.now) }
{
    let mut edges = Vec::new(alloc);
    for top in 0..targets.len() {
        put_edges(&mut edges, top as u32, targets.get(top))?;
    }
    Ok(edges)
}

/// The targets of tops, with none for so many behind them.
pub(crate) fn targets_beside(
    alloc: Global,
    targets: &Groups,
    count: usize,
) -> Result<Groups, NoMemory>
    requires { length targets.now + count < 2 ^ 32 }
    ensures { IfOk result (λ all. all ≡ targets.now ++ replicate count []) }
{
    let edges = edges_of(alloc, targets)?;
    group(alloc, targets.len() + count, edges.as_slice())
}

/// The file of each unit, and that of so many behind them.
pub(crate) fn files_beside(files: Vec<u32>, file: u32, count: u32) -> Result<Vec<u32>, NoMemory>
    ensures { IfOk result (λ all. all.items ≡ files.items ++ replicate count file) }
{
    let mut all = files;
    for _ in 0..count {
        all.push(file)?;
    }
    Ok(all)
}

/// A number for each top, and that of the top itself for each of those behind them, of which all are so many.
pub(crate) fn least_beside(least: Vec<u32>, count: usize) -> Result<Vec<u32>, NoMemory>
    requires many { length least.items ≤ count }
    requires few { count < 2 ^ 32 }
    ensures { IfOk result (λ all. all.items ≡ least.items ++ range_with_len (length least.items) (count - length least.items)) }
{
    let mut all = least;
    for top in all.len()..count {
        all.push(top as u32)?;
    }
    Ok(all)
}

/// The tops of files, and behind them those of a common file, as its index has them.
pub(crate) fn tops_beside(
    alloc: Global,
    own: Tops,
    common: &File,
    index: &CrossIndex,
) -> Result<Tops, NoMemory>
    requires { (docs : List (Doc ℕ)) × (doc : Doc ℕ) × StandBehind docs doc own common.now index.now }
    ensures { (docs : List (Doc ℕ)) (doc : Doc ℕ) → StandBehind docs doc own common.now index.now → IfOk result (IsOutlineOver docs doc) }
{
    let Tops {
        rows,
        targets,
        files_of_units,
        files,
    } = own;
    let count = index.tops().len();
    let first = files_of_units.len() as u32;
    let end = index.starts().top + count as u32;
    let units = units_of_tops(alloc, index.units(), end, first)?;
    let mut behind = rows_behind(alloc, common, index, files, units.as_slice())?;
    let mut rows = rows.into_vec();
    rows.append(&mut behind)?;
    let files_of_units = files_beside(files_of_units.into_vec(), files, common.units.len())?;
    Ok(Tops {
        rows: TopRows::new(rows),
        targets: targets_beside(alloc, &targets, count)?,
        files_of_units: Numbers::new(files_of_units),
        files,
    })
}
