//! Labels of tops that stand one behind the other, with names of their own.

ghost use Rattle.std.specs.Prelude.{◌≡◌, ℕ, ◌+◌, ◌-◌, ◌<◌, ◌≤◌, Some, IfOk, IfSome, OnOk, false, length, slice_get, slice_index_or, true};
ghost use Rattle.dwz_def_tops.specs.Alike.{Movable};
ghost use Rattle.dwz_def_tops.specs.Deciding.{AreMovable};
ghost use Rattle.dwz_def_tops.specs.Spots.{Top, tops_of, units_of};
ghost use Rattle.dwz_graph.specs.Files.{docs_of};
ghost use Rattle.dwz_label_files.specs.Marked.{AreInFile, AreNamesIn, HasPlace, IsStretch, TellFrom};
ghost use Rattle.dwz_label_files.specs.Run.{AreReady, IsInFile};
ghost use Rattle.dwz_label_marks.specs.Marks.{marks_of};
ghost use Rattle.dwz_label_marks.specs.Told.{Adds};
ghost use Rattle.dwz_label_words.specs.Known.{StaysNamed};

use crate::marks::{MarkRoom, Place, place_of, put_marks_of};
use crate::run::{Run, file_at};
use crate::search::{end_of, entry_of, file_of};
use crate::unit::UnitRow;
use dwz_label::Labels;
use dwz_label_marks::Names;
use dwz_label_words::FileNames;
use dwz_model::NoMemory;

// For how many bytes of a label there is room at once.
const LABEL_ROOM: usize = 16;

/// Labels of tops, with the names by which they tell marks.
#[derive(Drop)]
pub(crate) struct Stretch {
    pub(crate) names: Names,
    pub(crate) labels: Labels,
}

// Appends the marks of the top with a number, which is of that file, if it may move. `place` is where the last one stands, and then where
// this one does.
fn put_nth(
    run: &Run,
    rows: &[UnitRow],
    movable: &[bool],
    file: usize,
    n: usize,
    place: &mut Option<Place>,
    names: &mut FileNames,
    room: &mut MarkRoom,
    out: &mut Vec<u8>,
) -> Result<(), NoMemory>
    requires ready { AreReady run.now rows.now }
    requires there { IsInFile run.now.files.now run.now.indexes.now file n }
    requires flag { n < length movable.now }
    requires names { AreNamesIn run.now.files.now file names.old }
    requires place { IfSome place.old (HasPlace run.now file names.old.names) }
    ensures stays { OnOk result (StaysNamed names.old names.new) }
    ensures place { OnOk result (IfSome place.new (HasPlace run.now file names.new.names)) }
    ensures told { (t : Top) → slice_get (tops_of (units_of (docs_of run.now.graph.now.given))) n ≡ Some t
        → Movable (units_of (docs_of run.now.graph.now.given)) t.number → slice_index_or movable.now n false ≡ true
        → OnOk result (Adds names.new.names (marks_of t) out.old.items out.new.items) }
{
    if !movable[n] {
        return Ok(());
    }
    let entry = entry_of(run, file, n);
    let row = &rows[entry.unit as usize];
    let here = place_of(run, file, &entry, row, names, room, *place)?;
    *place = Some(here);
    put_marks_of(run, file, &entry, row, &here, names, room, out)
}

// Appends labels of the tops of a file from number `first` to before `end`: of one that may move its marks, of another no bytes.
fn put_labels(
    run: &Run,
    rows: &[UnitRow],
    movable: &[bool],
    file: usize,
    first: usize,
    end: usize,
    names: &mut FileNames,
    room: &mut MarkRoom,
    labels: &mut Labels,
) -> Result<(), NoMemory>
    requires ready { AreReady run.now rows.now }
    requires movable { length movable.now ≡ length (tops_of (units_of (docs_of run.now.graph.now.given))) }
    requires within { (first ≤ end) × (end ≤ length movable.now) }
    requires there { AreInFile run.now.files.now run.now.indexes.now file first end }
    requires names { AreNamesIn run.now.files.now file names.old }
    ensures stays { OnOk result (StaysNamed names.old names.new) }
    ensures len { OnOk result (length labels.new + first ≡ length labels.old + end) }
    ensures told { (from : ℕ) → AreMovable (units_of (docs_of run.now.graph.now.given)) movable.now → from + length labels.old ≡ first
        → TellFrom (units_of (docs_of run.now.graph.now.given)) names.old.names from labels.old
        → OnOk result (TellFrom (units_of (docs_of run.now.graph.now.given)) names.new.names from labels.new) }
{
    let mut label = Vec::new(run.alloc);
    let mut place = None;
    for n in first..end {
        label.clear();
        put_nth(
            run, rows, movable, file, n, &mut place, names, room, &mut label,
        )?;
        labels.push(label.as_slice())?;
    }
    Ok(())
}

// The same, where the names are those of tops before. The answer is these with the names of the tops.
fn with_file(
    run: &Run,
    rows: &[UnitRow],
    movable: &[bool],
    file: usize,
    first: usize,
    end: usize,
    names: Names,
    room: &mut MarkRoom,
    labels: &mut Labels,
) -> Result<Names, NoMemory>
    requires ready { AreReady run.now rows.now }
    requires movable { length movable.now ≡ length (tops_of (units_of (docs_of run.now.graph.now.given))) }
    requires file { file < length run.now.files.now }
    requires within { (first ≤ end) × (end ≤ length movable.now) }
    requires there { AreInFile run.now.files.now run.now.indexes.now file first end }
    ensures len { OnOk result (length labels.new + first ≡ length labels.old + end) }
    ensures told { (from : ℕ) → AreMovable (units_of (docs_of run.now.graph.now.given)) movable.now → from + length labels.old ≡ first
        → TellFrom (units_of (docs_of run.now.graph.now.given)) names from labels.old
        → IfOk result (λ all. TellFrom (units_of (docs_of run.now.graph.now.given)) all from labels.new) }
{
    let read = file_at(run, file);
    let mut names = FileNames::new(
        run.alloc,
        read.sections.strs.bytes,
        read.resolved.tables.as_slice(),
        read.units.declarations(),
        names,
    )?;
    put_labels(
        run, rows, movable, file, first, end, &mut names, room, labels,
    )?;
    Ok(names.into_names())
}

/// Labels of the tops from number `first` to before `end`: of one that may move its marks, of another no bytes.
pub(crate) fn stretch_of(
    run: &Run,
    rows: &[UnitRow],
    movable: &[bool],
    first: usize,
    end: usize,
) -> Result<Stretch, NoMemory>
    requires ready { AreReady run.now rows.now }
    requires movable { length movable.now ≡ length (tops_of (units_of (docs_of run.now.graph.now.given))) }
    requires within { (first ≤ end) × (end ≤ length movable.now) }
    ensures { IfOk result (IsStretch (units_of (docs_of run.now.graph.now.given)) movable.now first end) }
{
    let mut names = Names::new(run.alloc);
    let count = end - first;
    let mut labels = Labels::with_capacity(run.alloc, count, count.saturating_mul(LABEL_ROOM))?;
    let mut room = MarkRoom::new(run.alloc);
    let mut at = first;
    'files: while at < end {
        let file = file_of(run, at);
        let stop = end.min(end_of(run, file, at));
        names = with_file(
            run,
            rows,
            movable,
            file,
            at,
            stop,
            names,
            &mut room,
            &mut labels,
        )?;
        at = stop;
    }
    Ok(Stretch { names, labels })
}
