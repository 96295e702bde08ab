//! What is written of all files, in order.

ghost use Rattle.std.specs.Prelude.{◌≡◌, ◌+◌, ◌<◌, ◌≤◌, ◌^◌, [], All, List, None, length, slice_index_or, IfOk, OnOk};
ghost use Rattle.dwz_def_tops.specs.Spots.{units_of};
ghost use Rattle.dwz_def_reading.specs.Units.{entries_in};
ghost use Rattle.dwz_graph.specs.Few.{HasSmallNumbers};
ghost use Rattle.dwz_graph.specs.Files.{docs_of};
ghost use Rattle.dwz_graph.specs.Index.{Index};
ghost use Rattle.dwz_graph.specs.Indexed.{AreIndexes};
ghost use Rattle.dwz_layout_order.specs.Marks.{flag_at};
ghost use Rattle.dwz_groups.specs.Groups.{grouped};
ghost use Rattle.dwz_layout_order.specs.Ordered.{AreOrders, AreOrdersBehind, AreOrdersOver, AreSettled, AreSpaced, FilePut, from_index, next_index};
ghost use Rattle.dwz_layout_order.specs.Parts.{file_pairs};
ghost use Rattle.dwz_layout_order.specs.Steps.{AreNumbersOf, HoldsSpaced, NumbersPut, PutsFile};
ghost use Rattle.dwz_unit.specs.Rows.{units_of as raw_units};

use crate::{Marks, Next, Source, part_items, parts_of_files, put_units};
use dwz_graph::{File, Graph, Index};
use dwz_groups::Groups;
use dwz_layout::{FileItems, UnitItems};
use dwz_layout_items::{SpaceRow, TopSpaces};
use dwz_model::{DwzList, NoMemory};
use dwz_plan::Plan;
use std::alloc::Global;

/// What is settled of files before they are written.
#[derive(Clone, Copy)]
pub struct Settled<'a> {
    /// Which tops move, and into which partial units.
    pub plan: &'a Plan,
    /// What is known of tops and spaces.
    pub marks: Marks<'a>,
    /// For each space the one that it stands in.
    pub rows: &'a [SpaceRow],
    /// For each top the spaces that it stands in.
    pub of_tops: &'a [TopSpaces],
    /// For each partial unit the offset of the line table that its root names, if it names one (DWARF 5, 3.1.1).
    pub lines: &'a [Option<u32>],
    /// For each file whether it is written.
    pub files: &'a [bool],
}

// The line table of a partial unit.
#[inline(always)]
fn line_at(lines: &[Option<u32>], part: u32) -> Option<u32>
    ensures { result ≡ slice_index_or lines.now part None }
{
    match lines.get(part as usize) {
        Some(line) => *line,
        None => None,
    }
}

// Whether a file is written.
#[inline(always)]
fn is_written(files: &[bool], number: usize) -> bool
    ensures { result ≡ flag_at files.now number }
{
    match files.get(number) {
        Some(flag) => *flag,
        None => false,
    }
}

// What is written of the partial units with these numbers.
fn parts_items(
    alloc: Global,
    settled: &Settled,
    numbers: &[u32],
) -> Result<Vec<UnitItems>, NoMemory>
    requires settled { AreSpaced settled.now }
    requires there { All (λ n. n < length settled.now.plan.now.partials) numbers.now }
    requires inside { All (λ n. HoldsSpaced settled.now n) numbers.now }
    ensures { IfOk result (λ order. NumbersPut settled.now numbers.now order.items) }
{
    let partials = settled.plan.partials();
    let mut order = Vec::with_capacity(alloc, numbers.len())?;
    for number in numbers {
        let tops = partials[*number as usize].tops.as_slice();
        let line = line_at(settled.lines, *number);
        let unit = part_items(alloc, settled.rows, settled.of_tops, tops, line)?;
        order.push(unit)?;
    }
    Ok(order)
}

// What is written of a file, whose first entry has the number `start` among all: its partial units, which have these numbers, and then
// its old units.
fn file_items(
    alloc: Global,
    settled: &Settled,
    file: &File,
    index: &Index,
    number: u32,
    start: u32,
    numbers: &[u32],
) -> Result<FileItems, NoMemory>
    requires settled { AreSettled (number + 1) settled.now }
    requires numbers { AreNumbersOf settled.now number numbers.now }
    requires small { HasSmallNumbers index.now.starts start (entries_in (raw_units file.now.units)) }
    requires few_units { length (raw_units file.now.units) ≤ entries_in (raw_units file.now.units) }
    requires imports { index.now.starts.unit + length (raw_units file.now.units) ≤ length settled.now.plan.now.imports }
    ensures { IfOk result (FilePut settled.now (raw_units file.now.units) (from_index number start index.now) (next_index index.now)) }
{
    let starts = index.starts();
    let source = Source {
        file: number,
        units: &file.units,
        sections: &file.sections,
        unit: starts.unit,
        start,
    };
    let next = Next {
        top: starts.top,
        space: starts.space,
    };
    let mut order = parts_items(alloc, settled, numbers)?;
    put_units(
        alloc,
        &mut order,
        &source,
        &settled.marks,
        settled.plan,
        &next,
    )?;
    Ok(DwzList::new(order))
}

// Appends what is written of a file, if it is written. `parts` has for each file the numbers of its partial units.
fn put_file(
    alloc: Global,
    orders: &mut Vec<FileItems>,
    settled: &Settled,
    file: &File,
    index: &Index,
    number: u32,
    start: u32,
    parts: &Groups,
) -> Result<(), NoMemory>
    requires settled { AreSettled (number + 1) settled.now }
    requires there { number < length parts.now }
    requires numbers { AreNumbersOf settled.now number (slice_index_or parts.now number []) }
    requires small { HasSmallNumbers index.now.starts start (entries_in (raw_units file.now.units)) }
    requires few_units { length (raw_units file.now.units) ≤ entries_in (raw_units file.now.units) }
    requires imports { index.now.starts.unit + length (raw_units file.now.units) ≤ length settled.now.plan.now.imports }
    ensures { OnOk result (PutsFile (FilePut settled.now (raw_units file.now.units) (from_index number start index.now)
        (next_index index.now)) (flag_at settled.now.files.now number) orders.old.items orders.new.items) }
{
    if !is_written(settled.files, number as usize) {
        return Ok(());
    }
    let numbers = parts.get(number as usize);
    let order = file_items(alloc, settled, file, index, number, start, numbers)?;
    orders.push(order)?;
    Ok(())
}

// For each file, and behind all for the common one, the numbers of its partial units in order.
fn parts_of(alloc: Global, graph: &Graph, settled: &Settled) -> Result<Groups, NoMemory>
    requires few { length graph.now.given < 2 ^ 32 }
    requires few_parts { length settled.now.plan.now.partials < 2 ^ 32 }
    requires files { All (λ part. part.file ≤ length graph.now.given) settled.now.plan.now.partials }
    ensures { IfOk result (λ parts. parts ≡ grouped (length graph.now.given + 1) (file_pairs 0 settled.now.plan.now.partials)) }
{
    let files = graph.files().len();
    parts_of_files(alloc, files as u32, settled.plan.partials())
}

// Behind what is written of the common file, what is written of each file. `parts` has for each file the numbers of its partial units.
fn orders_behind(
    alloc: Global,
    graph: &Graph,
    settled: &Settled,
    common: Vec<UnitItems>,
    parts: &Groups,
) -> Result<Vec<FileItems>, NoMemory>
    requires few { length graph.now.given < 2 ^ 32 }
    requires settled { AreSettled (length graph.now.given) settled.now }
    requires imports { length (units_of (docs_of graph.now.given)) ≤ length settled.now.plan.now.imports }
    requires parts { parts.now ≡ grouped (length graph.now.given + 1) (file_pairs 0 settled.now.plan.now.partials) }
    ensures { (indexes : List Index) → AreIndexes (docs_of graph.now.given) indexes
        → IfOk result (λ orders. AreOrdersBehind common.items graph.now.given indexes settled.now orders.items) }
{
    let files = graph.files();
    let indexes = graph.indexes();
    let mut orders = Vec::new(alloc);
    orders.push(DwzList::new(common))?;
    let mut start = 0;
    for (number, file) in files.iter().enumerate() {
        let index = &indexes[number];
        put_file(
            alloc,
            &mut orders,
            settled,
            file,
            index,
            number as u32,
            start,
            parts,
        )?;
        start += index.len();
    }
    Ok(orders)
}

/// What is written of all files: of the common file its partial units, and then of each file that is written its partial units and its old
/// ones. A partial unit is the common file's where its file is the number of files.
pub fn orders_of_files(
    alloc: Global,
    graph: &Graph,
    settled: &Settled,
) -> Result<Vec<FileItems>, NoMemory>
    requires few { length graph.now.given < 2 ^ 32 }
    requires settled { AreSettled (length graph.now.given + 1) settled.now }
    requires files { All (λ part. part.file ≤ length graph.now.given) settled.now.plan.now.partials }
    requires imports { length (units_of (docs_of graph.now.given)) ≤ length settled.now.plan.now.imports }
    ensures { (indexes : List Index) → AreIndexes (docs_of graph.now.given) indexes
        → IfOk result (λ orders. AreOrders graph.now.given indexes settled.now orders.items) }
{
    let parts = parts_of(alloc, graph, settled)?;
    let common = parts_items(alloc, settled, parts.get(graph.files().len()))?;
    orders_behind(alloc, graph, settled, common, &parts)
}

/// What is written of all files over a common file that stands: of that nothing, and then of each file that is written its partial units
/// and its old ones.
pub fn orders_over(
    alloc: Global,
    graph: &Graph,
    settled: &Settled,
) -> Result<Vec<FileItems>, NoMemory>
    requires few { length graph.now.given < 2 ^ 32 }
    requires settled { AreSettled (length graph.now.given) settled.now }
    requires files { All (λ part. part.file ≤ length graph.now.given) settled.now.plan.now.partials }
    requires imports { length (units_of (docs_of graph.now.given)) ≤ length settled.now.plan.now.imports }
    ensures { (indexes : List Index) → AreIndexes (docs_of graph.now.given) indexes
        → IfOk result (λ orders. AreOrdersOver graph.now.given indexes settled.now orders.items) }
{
    let parts = parts_of(alloc, graph, settled)?;
    orders_behind(alloc, graph, settled, Vec::new(alloc), &parts)
}
