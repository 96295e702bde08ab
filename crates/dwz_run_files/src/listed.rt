//! The lists that a layout looks into, where texts stand as they were read.

ghost use Rattle.std.specs.Prelude.{◌≡◌, ◌<◌, ◌^◌, List, length, map, IfOk};
ghost use Rattle.dwz_graph.specs.Files.{AreKept, docs_of};
ghost use Rattle.dwz_graph.specs.Index.{Index};
ghost use Rattle.dwz_graph.specs.Indexed.{AreIndexes};
ghost use Rattle.dwz_encode_texts.specs.Files.{texts_in_file};
ghost use Rattle.dwz_encode_texts.specs.Names.{HaveNames};
ghost use Rattle.dwz_law_layout.specs.Beside.{Standing};
ghost use Rattle.dwz_run_files.specs.OverRun.{AreListedOver, IsSettledOver, IsStanding};
ghost use Rattle.dwz_run_files.specs.SettledRun.{AreListedAsRead, IsSettledRun};

use crate::number_units;
use crate::settled::SettledRun;
use crate::standing::StandingCommon;
use dwz_encode_texts::{texts_of_files, texts_of_spaces};
use dwz_graph::{File, Graph};
use dwz_layout::EntryTable;
use dwz_layout_input::{FileTexts, known_of, known_over};
use dwz_model::NoMemory;
use std::alloc::Global;

// No numbers of paths of the common file, for so many files.
fn no_numbers(alloc: Global, count: usize) -> Result<Vec<Vec<u32>>, NoMemory>
    ensures { IfOk result (λ numbers. length numbers.items ≡ count) }
{
    let mut numbers = Vec::with_capacity(alloc, count)?;
    for _ in 0..count {
        numbers.push(Vec::new(alloc))?;
    }
    Ok(numbers)
}

// Where the texts of files and the names of their spaces stand, as they were read. Where names stand in the common file, and the numbers
// of its paths, isn't known yet.
fn texts_of(alloc: Global, graph: &Graph, files: &[File]) -> Result<FileTexts, NoMemory>
    ensures files { IfOk result (λ t. map (λ texts. texts.items) t.files.items ≡ map texts_in_file files.now) }
    ensures spaces { (indexes : List Index) → AreIndexes (docs_of graph.now.given) indexes
        → IfOk result (λ t. HaveNames graph.now.given indexes t.spaces.items) }
    ensures commons { IfOk result (λ t. length t.commons.items ≡ length t.spaces.items) }
    ensures numbers { IfOk result (λ t. length t.numbers.items ≡ length files.now) }
{
    let texts = texts_of_files(alloc, files)?;
    let spaces = texts_of_spaces(alloc, graph)?;
    let commons = spaces.as_slice().to_vec(alloc)?;
    let numbers = no_numbers(alloc, files.len())?;
    Ok(FileTexts {
        files: texts,
        spaces,
        commons,
        numbers,
    })
}

/// The lists of settled files. `files` are those of the graph.
pub(crate) fn list_run<'u, 'a>(
    alloc: Global,
    graph: &Graph,
    files: &'u [File<'a>],
    run: &SettledRun,
) -> Result<EntryTable<'u, 'a>, NoMemory>
    requires few { length graph.now.given < 2 ^ 32 }
    requires kept { AreKept graph.now.given files.now }
    requires run { IsSettledRun graph.now.given run.now }
    ensures { IfOk result (AreListedAsRead graph.now.given files.now run.now) }
{
    let indexes = run.indexes;
    let plan = &run.settled.planned.plan;
    let written = run.settled.written.as_slice();
    let numbers = number_units(alloc, graph, plan, written)?;
    let texts = texts_of(alloc, graph, files)?;
    known_of(alloc, files, indexes, plan, numbers, texts)
}

/// The lists of settled files over a common file that stands. `files` are those of the graph.
pub(crate) fn list_over<'u, 'a>(
    alloc: Global,
    graph: &Graph,
    files: &'u [File<'a>],
    run: &SettledRun,
    standing: &StandingCommon,
) -> Result<EntryTable<'u, 'a>, NoMemory>
    requires few { length graph.now.given < 2 ^ 32 }
    requires kept { AreKept graph.now.given files.now }
    requires run { (s : Standing) × IsSettledOver s graph.now.given run.now × IsStanding s (docs_of graph.now.given) standing.now }
    ensures { (s : Standing) → IsSettledOver s graph.now.given run.now → IsStanding s (docs_of graph.now.given) standing.now
        → IfOk result (AreListedOver s graph.now.given files.now run.now) }
{
    let indexes = run.indexes;
    let plan = &run.settled.planned.plan;
    let written = run.settled.written.as_slice();
    let numbers = number_units(alloc, graph, plan, written)?;
    let texts = texts_of(alloc, graph, files)?;
    let common = standing.common;
    known_over(
        alloc,
        files,
        indexes,
        &common.units,
        &standing.index,
        plan,
        numbers,
        texts,
    )
}
