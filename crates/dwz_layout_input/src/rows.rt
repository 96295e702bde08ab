//! The entries of each file, and what they name.

ghost use Rattle.std.specs.Prelude.{◌≡◌, ◌+◌, ◌<◌, ◌^◌, length, map, slice_index, IfOk};
ghost use Rattle.dwz_law_layout.specs.Beside.{Beside};
ghost use Rattle.dwz_law_layout.specs.Facts.{RunFacts, every, move};
ghost use Rattle.dwz_law_layout.specs.Listed.{AreRows, HaveFirsts, IsListed, firsts_from};
ghost use Rattle.dwz_layout_numbers.specs.Images.{IsPlanned};
ghost use Rattle.dwz_graph.specs.EntryCounts.{starts_from};
ghost use Rattle.dwz_layout_input.specs.Needs.{FitsFile, IsFit};

use dwz_graph::{File, Index};
use dwz_layout::{FileRows, TextAt, ValueCounts};
use dwz_layout_numbers::{CountsBefore, befores, references};
use dwz_model::NoMemory;
use dwz_plan::Plan;
use std::alloc::Global;

// Where what the entry with a number names begins, before which so many texts and numbers of files come.
#[inline(always)]
fn firsts_at(starts: &[u32], entry: usize, before: &CountsBefore) -> ValueCounts
    ensures { result ≡ firsts_from (slice_index starts.now entry) before.now }
{
    let reference = match starts.get(entry) {
        Some(start) => *start,
        None => 0,
    };
    ValueCounts {
        reference: reference as u64,
        text: before.texts,
        file: before.files,
    }
}

// For each entry of a file where what it names begins.
fn firsts_of(alloc: Global, file: &File<'_>) -> Result<Vec<ValueCounts>, NoMemory>
    ensures { IfOk result (λ firsts. HaveFirsts file.now firsts.items) }
{
    let befores = befores(alloc, &file.units)?;
    let starts = file.resolved.starts.as_slice();
    let mut firsts = Vec::with_capacity(alloc, befores.len())?;
    for (entry, before) in befores.iter().enumerate() {
        firsts.push(firsts_at(starts, entry, before))?;
    }
    Ok(firsts)
}

// The entries of a file whose first one has the number `start` among those of all files.
fn rows_of<'u, 'a>(
    alloc: Global,
    file: &'u File<'a>,
    index: &Index,
    plan: &Plan,
    tops: &[u32],
    start: u32,
    texts: Vec<TextAt>,
    numbers: Vec<u32>,
) -> Result<FileRows<'u, 'a>, NoMemory>
    requires fits { FitsFile file.now index.now }
    requires few { start + length index.now.steps < 2 ^ 32 }
    requires plan { length plan.now.stand_ins ≡ length tops.now }
    ensures listed { (beside : Beside) (f : RunFacts beside) → IsPlanned (every f) (move f) plan.now tops.now
        → IfOk result (λ r. IsListed f file.now index.now start texts.items r) }
    ensures numbers { IfOk result (λ r. r.files.items ≡ numbers.items) }
{
    let firsts = firsts_of(alloc, file)?;
    let refs = file.resolved.refs.as_slice();
    let references = references(alloc, index, plan, tops, start, refs)?;
    Ok(FileRows {
        units: &file.units,
        start,
        firsts,
        references,
        texts,
        files: numbers,
    })
}

/// The entries of each file. `tops` has for each top the number of its entry, `starts` for each file that of its first one.
pub(crate) fn rows_of_files<'u, 'a>(
    alloc: Global,
    files: &'u [File<'a>],
    indexes: &[Index],
    plan: &Plan,
    tops: &[u32],
    starts: &[u32],
    all: Vec<Vec<TextAt>>,
    numbers: Vec<Vec<u32>>,
) -> Result<Vec<FileRows<'u, 'a>>, NoMemory>
    requires fit { IsFit files.now indexes.now plan.now (length tops.now) }
    requires starts { starts.now ≡ starts_from 0 indexes.now }
    requires texts { length all.items ≡ length files.now }
    requires numbers { length numbers.items ≡ length files.now }
    ensures rows { (beside : Beside) (f : RunFacts beside) → IsPlanned (every f) (move f) plan.now tops.now
        → IfOk result (λ rows. AreRows f files.now indexes.now starts.now (map (λ texts. texts.items) all.items) rows.items) }
    ensures numbers { IfOk result (λ rows. map (λ r. r.files.items) rows.items ≡ map (λ some. some.items) numbers.items) }
{
    let mut rows = Vec::with_capacity(alloc, files.len())?;
    let mut left = numbers.into_iter();
    let mut number = 0;
    for texts in all {
        let Some(numbers) = left.next() else {
            return Ok(rows);
        };
        let row = rows_of(
            alloc,
            &files[number],
            &indexes[number],
            plan,
            tops,
            starts[number],
            texts,
            numbers,
        )?;
        rows.push(row)?;
        number += 1;
    }
    Ok(rows)
}
