//! The marks of a top, from the rows of its file.

ghost use Rattle.std.specs.Prelude.{◌≡◌, ℕ, ◌+◌, Some, IfOk, IfSome, OnOk, slice_get};
ghost use Rattle.dwz_def_tops.specs.Alike.{Movable};
ghost use Rattle.dwz_def_tops.specs.Spots.{Top, tops_of, units_of};
ghost use Rattle.dwz_graph.specs.Files.{docs_of};
ghost use Rattle.dwz_graph.specs.Index.{Index};
ghost use Rattle.dwz_label_files.specs.Marked.{AreNamesIn, HasPlace, IsPlace};
ghost use Rattle.dwz_label_files.specs.Run.{IsRun, IsTopIn};
ghost use Rattle.dwz_label_marks.specs.Marks.{marks_of};
ghost use Rattle.dwz_label_marks.specs.Told.{Adds};
ghost use Rattle.dwz_label_words.specs.Known.{StaysNamed};

use crate::run::{Run, file_at, index_at};
use crate::spaces::put_spaces;
use crate::unit::UnitRow;
use dwz_graph::TopEntry;
use dwz_label_entries::Source;
use dwz_label_words::{FileNames, Room, name_place, put_top_marks};
use dwz_model::NoMemory;
use std::alloc::Global;

/// Rows that are used again from one top to the next, for the room that they have.
#[derive(Drop)]
pub(crate) struct MarkRoom {
    // The entries of the spaces that the last top stands in.
    spaces: Vec<u32>,
    room: Room,
}

impl MarkRoom {
    /// Empty rows.
    pub(crate) fn new(alloc: Global) -> MarkRoom {
        MarkRoom {
            spaces: Vec::new(alloc),
            room: Room::new(alloc),
        }
    }
}

// The number of the name of where a top stands.
fn name_of_place(
    run: &Run,
    file: usize,
    entry: &TopEntry,
    row: &UnitRow,
    names: &mut FileNames,
    room: &mut MarkRoom,
) -> Result<u32, NoMemory>
    requires run { IsRun run.now }
    requires there { IsTopIn run.now.files.now run.now.indexes.now file entry.now row.now }
    ensures stays { OnOk result (StaysNamed names.old names.new) }
    ensures name { IfOk result (IsPlace run.now file names.new.names entry.now.unit entry.now.inner) }
{
    let read = file_at(run, file);
    let index = index_at(run, file);
    let spaces = &mut room.spaces;
    put_spaces(index.spaces(), index.starts().space, entry.inner, spaces)?;
    let source = Source {
        alloc: run.alloc,
        units: &read.units,
        sections: &read.sections,
        refs: read.resolved.refs.as_slice(),
        tables: read.resolved.tables.as_slice(),
        index,
    };
    name_place(
        &source,
        names,
        &row.here,
        row.language,
        spaces.as_slice(),
        &mut room.room,
    )
}

/// Where a top stands: the number of its unit, the space that it stands in, and the number of the name of these.
#[derive(Clone, Copy)]
pub(crate) struct Place {
    unit: u32,
    inner: u32,
    name: u32,
}

/// Where a top of the file with a number stands: as the last one, or somewhere else.
pub(crate) fn place_of(
    run: &Run,
    file: usize,
    entry: &TopEntry,
    row: &UnitRow,
    names: &mut FileNames,
    room: &mut MarkRoom,
    last: Option<Place>,
) -> Result<Place, NoMemory>
    requires run { IsRun run.now }
    requires there { IsTopIn run.now.files.now run.now.indexes.now file entry.now row.now }
    requires last { IfSome last (HasPlace run.now file names.old.names) }
    ensures stays { OnOk result (StaysNamed names.old names.new) }
    ensures place { IfOk result (HasPlace run.now file names.new.names) }
    ensures own { IfOk result (λ p. (p.unit ≡ entry.now.unit) × (p.inner ≡ entry.now.inner)) }
{
    if let Some(place) = last {
        if place.unit == entry.unit && place.inner == entry.inner {
            return Ok(place);
        }
    }
    let name = name_of_place(run, file, entry, row, names, room)?;
    Ok(Place {
        unit: entry.unit,
        inner: entry.inner,
        name,
    })
}

/// Appends the marks of a top of the file with a number, by what the file's index gives it, what is kept of its unit, and where it stands.
/// The names are those of the file.
pub(crate) fn put_marks_of(
    run: &Run,
    file: usize,
    entry: &TopEntry,
    row: &UnitRow,
    place: &Place,
    names: &mut FileNames,
    room: &mut MarkRoom,
    out: &mut Vec<u8>,
) -> Result<(), NoMemory>
    requires run { IsRun run.now }
    requires there { IsTopIn run.now.files.now run.now.indexes.now file entry.now row.now }
    requires names { AreNamesIn run.now.files.now file names.old }
    requires place { HasPlace run.now file names.old.names place.now }
    requires own { (place.now.unit ≡ entry.now.unit) × (place.now.inner ≡ entry.now.inner) }
    ensures stays { OnOk result (StaysNamed names.old names.new) }
    ensures told { (x : Index) (k : ℕ) (t : Top) → slice_get run.now.indexes.now file ≡ Some x → slice_get x.tops k ≡ Some entry.now
        → slice_get (tops_of (units_of (docs_of run.now.graph.now.given))) (x.starts.top + k) ≡ Some t
        → Movable (units_of (docs_of run.now.graph.now.given)) t.number
        → OnOk result (Adds names.new.names (marks_of t) out.old.items out.new.items) }
{
    let read = file_at(run, file);
    let source = Source {
        alloc: run.alloc,
        units: &read.units,
        sections: &read.sections,
        refs: read.resolved.refs.as_slice(),
        tables: read.resolved.tables.as_slice(),
        index: index_at(run, file),
    };
    let line = read.resolved.lines[row.here.number as usize];
    let end = read.units.entry(entry.entry).end;
    let next = read.resolved.starts[entry.entry as usize] as usize;
    put_top_marks(
        &source,
        names,
        out,
        &row.here,
        line,
        place.name,
        entry.entry,
        end,
        next,
        &mut room.room,
    )
}
