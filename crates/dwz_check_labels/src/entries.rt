//! Entries, with what their attributes say.

ghost use Rattle.std.specs.Prelude.{◌≡◌, ℕ, ◌+◌, ◌≤◌, ◌<◌, ◌++◌, List, Some, OnOk, length, drop, slice_get, slice_index, slice_range, map};
ghost use Rattle.std.specs.List.{flat_map};
ghost use Rattle.dwz_def_reading.specs.Documents.{DwUnit, Node, attr_map, node_map};
ghost use Rattle.dwz_def_reading.specs.Units.{entries_in};
ghost use Rattle.dwz_def_check.specs.CrossLabels.{cross_attr_label, lone_label, lone_targets};
ghost use Rattle.dwz_def_check.specs.CrossNames.{CrossName};
ghost use Rattle.dwz_label.specs.Labels.{each_counted};
ghost use Rattle.dwz_check_index.specs.Index.{ListedEntry, listed_units};
ghost use Rattle.dwz_check_labels.specs.Entries.{IsEntryOf, entry_into, entry_label};
ghost use Rattle.dwz_check_labels.specs.Files.{IsHereOf, IsReady, KnowsSource, common_of, raw_of};
ghost use Rattle.dwz_check_labels.specs.Told.{Tells};
ghost use Rattle.dwz_check_labels.specs.Values.{attrs_into};
ghost use Rattle.dwz_graph.specs.Surroundings.{AreAmong};
ghost use Rattle.dwz_unit.specs.Rows.{EntryRow, rows_of};

use crate::named_file::here_at;
use crate::source::{Source, line_at};
use crate::values::put_attr;
use dwz_graph::Here;
use dwz_label::put_number;
use dwz_label_entries::{Scratch, count_of, part};
use dwz_model::NoMemory;
use dwz_unit::{Values, known_value};

// The references of an entry.
fn refs_of<'s>(source: &Source<'s, '_>, i: u32) -> &'s [u32]
    requires ready { IsReady source.now }
    requires there { i < entries_in (raw_of source.now) }
    ensures within { AreAmong (common_of source.now.common) (raw_of source.now) result.now }
    ensures refs { result.now
        ≡ slice_range source.now.refs.now (slice_index source.now.starts.now i) (slice_index source.now.starts.now (i + 1)) }
{
    let start = source.starts[i as usize] as usize;
    let end = source.starts[i as usize + 1] as usize;
    part(source.refs, start, end.saturating_sub(start))
}

// Appends what the attributes of an entry say, behind their number. Its unit's values stand in `here`.
fn put_values(
    source: &Source,
    out: &mut Vec<u8>,
    tops: &mut Vec<u32>,
    here: &Here,
    line: Option<usize>,
    i: u32,
    scratch: &mut Scratch,
) -> Result<(), NoMemory>
    requires ready { IsReady source.now }
    requires here { here.now.end ≤ entries_in (raw_of source.now) }
    requires there { i < entries_in (raw_of source.now) }
    ensures { (said : List (DwUnit ℕ)) (name : ℕ → CrossName) (n : ℕ) (row : EntryRow) (d : Node ℕ) → KnowsSource source.now said name
        → IsHereOf (raw_of source.now) n here.now → slice_get source.now.lines.now n ≡ Some line
        → IsEntryOf source.now n i row d
        → OnOk result (Tells (each_counted cross_attr_label (map (attr_map name) d.attrs)) (attrs_into name d.attrs) out.old.items
        out.new.items tops.old.items tops.new.items) }
{
    let refs = refs_of(source, i);
    let Values { pairs, mut cursor } = source.own.units.values(i);
    put_number(out, count_of(pairs) as u128)?;
    let mut behind = 0;
    for pair in pairs {
        let raw = known_value(&mut cursor, pair);
        let end = cursor.at() as u64;
        behind = put_attr(
            source, out, tops, here, line, end, pair, &raw, refs, behind, scratch,
        )?;
    }
    Ok(())
}

/// Appends what an entry says by itself, its tag and its attributes; and the numbers of the tops that its references lead into.
pub fn put_lone(
    source: &Source,
    out: &mut Vec<u8>,
    tops: &mut Vec<u32>,
    i: u32,
    scratch: &mut Scratch,
) -> Result<(), NoMemory>
    requires ready { IsReady source.now }
    requires there { i < entries_in (raw_of source.now) }
    ensures { (said : List (DwUnit ℕ)) (name : ℕ → CrossName) (d : ListedEntry ℕ) → KnowsSource source.now said name
        → slice_get (listed_units said) i ≡ Some d
        → OnOk result (Tells (lone_label (node_map name d.0)) (lone_targets (node_map name d.0)) out.old.items out.new.items tops.old.items
        tops.new.items) }
{
    let entry = source.own.units.entry(i);
    let here = here_at(&source.own, entry.unit);
    let line = line_at(source, entry.unit);
    put_number(out, entry.tag as u128)?;
    put_values(source, out, tops, here, line, i, scratch)?;
    Ok(())
}

// The same behind the number of the entries below it.
fn put_entry(
    source: &Source,
    out: &mut Vec<u8>,
    tops: &mut Vec<u32>,
    i: u32,
    scratch: &mut Scratch,
) -> Result<(), NoMemory>
    requires ready { IsReady source.now }
    requires there { i < entries_in (raw_of source.now) }
    ensures { (said : List (DwUnit ℕ)) (name : ℕ → CrossName) (d : ListedEntry ℕ) → KnowsSource source.now said name
        → slice_get (listed_units said) i ≡ Some d
        → OnOk result (Tells (entry_label name d) (entry_into name d) out.old.items out.new.items tops.old.items tops.new.items) }
{
    let end = source.own.units.entry(i).end;
    put_number(out, end.saturating_sub(i).saturating_sub(1) as u128)?;
    put_lone(source, out, tops, i, scratch)?;
    Ok(())
}

/// Appends what the entries from number `first` to before `end` say, each behind the number of those below it.
pub(crate) fn put_entries(
    source: &Source,
    out: &mut Vec<u8>,
    tops: &mut Vec<u32>,
    first: u32,
    end: u32,
    scratch: &mut Scratch,
) -> Result<(), NoMemory>
    requires ready { IsReady source.now }
    requires there { end ≤ entries_in (raw_of source.now) }
    ensures { (said : List (DwUnit ℕ)) (name : ℕ → CrossName) (ds after : List (ListedEntry ℕ)) → KnowsSource source.now said name
        → drop first (listed_units said) ≡ ds ++ after → first + length ds ≡ end
        → OnOk result (Tells (flat_map (entry_label name) ds) (flat_map (entry_into name) ds) out.old.items out.new.items tops.old.items
        tops.new.items) }
{
    for i in first..end {
        put_entry(source, out, tops, i, scratch)?;
    }
    Ok(())
}
