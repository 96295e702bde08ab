//! Tops, with what their entries say.

ghost use Rattle.std.specs.Prelude.{◌≡◌, ℕ, ◌+◌, ◌≤◌, List, Some, OnOk, drop};
ghost use Rattle.dwz_def_reading.specs.Documents.{Node};
ghost use Rattle.dwz_def_reading.specs.Lists.{Each};
ghost use Rattle.dwz_def_reading.specs.TextRows.{text_number};
ghost use Rattle.dwz_def_reading.specs.Trees.{End, Entry, size};
ghost use Rattle.dwz_def_reading.specs.Units.{RawUnit, entries_in};
ghost use Rattle.dwz_def_tops.specs.Spots.{EntryName, Top, name_list};
ghost use Rattle.dwz_graph.specs.FlatTops.{HasTop};
ghost use Rattle.dwz_graph.specs.Rows.{AreRowsMeant, AreTargets, nodes, nodes_refs};
ghost use Rattle.dwz_label.specs.Labels.{place_label};
ghost use Rattle.dwz_label_entries.specs.Sources.{IsReady, KnowsUnit, raw_of, scope_at};
ghost use Rattle.dwz_label_marks.specs.Marks.{marks_of};
ghost use Rattle.dwz_label_marks.specs.Told.{Adds};
ghost use Rattle.dwz_label_words.specs.Known.{StaysNamed};
ghost use Rattle.dwz_label_words.specs.Told.{AreNamesOf, AreUsual, rows_marks};
ghost use Rattle.dwz_unit.specs.Rows.{EntryRow, rows_of};

use crate::FileNames;
use crate::entries::put_entry_marks;
use crate::room::Room;
use dwz_graph::Here;
use dwz_label_entries::Source;
use dwz_label_marks::put_named;
use dwz_model::NoMemory;

// Appends the marks of the entries of a unit from number `first` to before `end`, each by itself. Their references begin at `next`.
fn put_rows(
    source: &Source,
    names: &mut FileNames,
    out: &mut Vec<u8>,
    here: &Here,
    line: Option<usize>,
    first: u32,
    end: u32,
    next: usize,
    room: &mut Room,
) -> Result<(), NoMemory>
    requires ready { IsReady source.now here.now }
    requires names { AreNamesOf source.now names.old }
    requires rows { end ≤ entries_in (raw_of source.now) }
    ensures stays { OnOk result (StaysNamed names.old names.new) }
    ensures told { (u : RawUnit) (name : ℕ → EntryName) (rows after : List EntryRow) (ds : List (Node ℕ))
        → KnowsUnit source.now here.now line u name
        → Each (λ row. row.unit ≡ here.now.number) rows
        → AreRowsMeant (raw_of source.now) (scope_at source.now u) first end (drop next source.now.refs.now) rows after ds
        → Each AreUsual ds → OnOk result (Adds names.new.names (rows_marks name first rows ds) out.old.items out.new.items) }
{
    let mut at = next;
    for i in first..end {
        at = put_entry_marks(source, names, out, here, line, i, at, room)?;
    }
    Ok(())
}

/// Appends the marks of a top, whose entries are those from number `first` to before `end`, and name entries only as references. `place` is
/// the number of the name of where it stands: of the language of its unit, and of the names of the spaces that it stands in. The references
/// of its entries begin at `next`. `line` is the number of the unit's line table.
pub fn put_top_marks(
    source: &Source,
    names: &mut FileNames,
    out: &mut Vec<u8>,
    here: &Here,
    line: Option<usize>,
    place: u32,
    first: u32,
    end: u32,
    next: usize,
    room: &mut Room,
) -> Result<(), NoMemory>
    requires ready { IsReady source.now here.now }
    requires names { AreNamesOf source.now names.old }
    requires rows { end ≤ entries_in (raw_of source.now) }
    ensures stays { OnOk result (StaysNamed names.old names.new) }
    ensures told { (u : RawUnit) (name : ℕ → EntryName) (depth : ℕ) (t : Top)
        (h : HasTop (scope_at source.now u) name (rows_of (raw_of source.now)) here.now.number depth t.spaces t)
        → KnowsUnit source.now here.now line u name → text_number names.old.names (place_label t.language (name_list t)) ≡ Some place
        → h.p.before ≡ first → first + size (Entry h.e h.c End) ≡ end → AreTargets (raw_of source.now) (drop next source.now.refs.now)
        (nodes_refs (nodes (Entry h.d h.g End))) → Each AreUsual (nodes (Entry h.d h.g End))
        → OnOk result (Adds names.new.names (marks_of t) out.old.items out.new.items) }
{
    put_named(out, place)?;
    put_rows(source, names, out, here, line, first, end, next, room)
}
