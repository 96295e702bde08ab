//! The label of a top.
//!
//! It is written from rows; no document is made. Each writer's clause is the definition's own word of what the rows mean. That the file was
//! read is a premise and no test: what can't come in such a file answers want of memory, or writes nothing.

ghost use Rattle.std.specs.Prelude.{◌≡◌, ℕ, ◌+◌, ◌<◌, ◌≤◌, ◌++◌, OnOk, drop};
ghost use Rattle.dwz_def_tops.specs.Spots.{EntryName, Top};
ghost use Rattle.dwz_label_entries.specs.Sources.{IsReady, KnowsUnit, around_at, raw_of, scope_at};
ghost use Rattle.dwz_def_reading.specs.Trees.{End, Entry, size};
ghost use Rattle.dwz_def_reading.specs.Units.{RawUnit, entries_in};
ghost use Rattle.dwz_graph.specs.Rows.{AreTargets, nodes, nodes_refs};
ghost use Rattle.dwz_graph.specs.FlatTops.{HasTop};
ghost use Rattle.dwz_graph.specs.Chains.{AreSpacesAt};
ghost use Rattle.dwz_label.specs.Labels.{label_of};
ghost use Rattle.dwz_def_reading.specs.Lists.{Each};
ghost use Rattle.dwz_unit.specs.Rows.{rows_of};

use crate::entries::put_rows;
use crate::names::put_names;
use crate::source::{Scratch, Source};
use dwz_graph::Here;
use dwz_label::put_language;
use dwz_model::NoMemory;

/// Appends the label of a top, whose entries are those from number `first` to before `end`: the language of its unit, the names of the
/// spaces that it stands in, whose entries' numbers are `spaces`, the outermost first, and what its entries say. Their references begin
/// at `next`. `line` is the number of the unit's line table.
pub fn put_top(
    source: &Source,
    out: &mut Vec<u8>,
    here: &Here,
    line: Option<usize>,
    language: Option<i128>,
    spaces: &[u32],
    first: u32,
    end: u32,
    next: usize,
    scratch: &mut Scratch,
) -> Result<(), NoMemory>
    requires ready { IsReady source.now here.now }
    requires rows { end ≤ entries_in (raw_of source.now) }
    requires spaces { Each (λ i. i < entries_in (raw_of source.now)) spaces.now }
    ensures { (u : RawUnit) (name : ℕ → EntryName) (depth : ℕ) (t : Top)
        (h : HasTop (scope_at source.now u) name (rows_of (raw_of source.now)) here.now.number depth t.spaces t)
        → KnowsUnit source.now here.now line u name → t.language ≡ language
        → AreSpacesAt (raw_of source.now) (around_at source.now) here.now.number t.spaces spaces.now → h.p.before ≡ first
        → first + size (Entry h.e h.c End) ≡ end → AreTargets (raw_of source.now) (drop next source.now.refs.now)
        (nodes_refs (nodes (Entry h.d h.g End))) → OnOk result (out.new.items ≡ out.old.items ++ label_of t) }
{
    put_language(out, language)?;
    put_names(out, source.units, source.sections, here, spaces)?;
    put_rows(source, out, here, line, first, end, next, scratch)?;
    Ok(())
}
