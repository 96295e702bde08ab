//! The label of a top, from the rows of its file.

ghost use Rattle.std.specs.Prelude.{◌≡◌, ℕ, ◌+◌, ◌<◌, ◌++◌, List, Some, OnOk, slice_get};
ghost use Rattle.dwz_label_files.specs.Run.{IsRun, IsTopIn, labels_of};
ghost use Rattle.dwz_graph.specs.Index.{Index};
ghost use Rattle.dwz_label.specs.Shown.{nth_label};

use crate::run::{Run, file_at, index_at};
use crate::spaces::put_spaces;
use crate::unit::UnitRow;
use dwz_graph::TopEntry;
use dwz_label_entries::{Scratch, Source, put_top};
use dwz_model::NoMemory;
use std::alloc::Global;

/// Rows that are used again from one top to the next, for the room that they have.
#[derive(Drop)]
pub(crate) struct TopScratch {
    // The entries of the spaces that the last top stands in.
    spaces: Vec<u32>,
    scratch: Scratch,
}

impl TopScratch {
    /// Empty rows.
    pub(crate) fn new(alloc: Global) -> TopScratch {
        TopScratch {
            spaces: Vec::new(alloc),
            scratch: Scratch::new(alloc),
        }
    }
}

/// Appends the label of a top of the file with a number, by what the file's index gives it and what is kept of its unit.
pub(crate) fn put_top_of(
    run: &Run,
    file: usize,
    entry: &TopEntry,
    row: &UnitRow,
    room: &mut TopScratch,
    out: &mut Vec<u8>,
) -> Result<(), NoMemory>
    requires run { IsRun run.now }
    requires there { IsTopIn run.now.files.now run.now.indexes.now file entry.now row.now }
    ensures { (x : Index) (k : ℕ) → slice_get run.now.indexes.now file ≡ Some x → slice_get x.tops k ≡ Some entry.now
        → OnOk result (out.new.items ≡ out.old.items ++ nth_label (labels_of run.now.graph.now.given) (x.starts.top + k)) }
{
    let read = file_at(run, file);
    let index = index_at(run, file);
    let spaces = &mut room.spaces;
    put_spaces(index.spaces(), index.starts().space, entry.inner, spaces)?;
    let source = Source {
        alloc: run.alloc,
        units: &read.units,
        sections: &read.sections,
        refs: read.resolved.refs.as_slice(),
        tables: read.resolved.tables.as_slice(),
        index,
    };
    let line = read.resolved.lines[row.here.number as usize];
    let end = read.units.entry(entry.entry).end;
    let next = read.resolved.starts[entry.entry as usize] as usize;
    put_top(
        &source,
        out,
        &row.here,
        line,
        row.language,
        spaces.as_slice(),
        entry.entry,
        end,
        next,
        &mut room.scratch,
    )?;
    Ok(())
}
