//! Values, with the entries that they name.

ghost use Rattle.std.specs.Prelude.{◌≡◌, ℕ, ◌≤◌, ◌++◌, ◌∷◌, List, Ok, IfOk, drop, map};
ghost use Rattle.dwz_def_reading.specs.Documents.{Attr, DwUnit, Value};
ghost use Rattle.dwz_def_reading.specs.Entries.{RawAttr};
ghost use Rattle.dwz_def_reading.specs.Meant.{meaning};
ghost use Rattle.dwz_def_reading.specs.Units.{RawUnit, entries_in};
ghost use Rattle.dwz_def_check.specs.CrossNames.{CrossName};
ghost use Rattle.dwz_label_entries.specs.Plain.{KnowsLine};
ghost use Rattle.dwz_check_labels.specs.Files.{IsReady, KnowsSource, common_of, place_of, raw_of, scope_at};
ghost use Rattle.dwz_check_labels.specs.Values.{AreAttrsMeant, TellsAttr, TellsValue};
ghost use Rattle.dwz_graph.specs.Named.{value_refs};
ghost use Rattle.dwz_graph.specs.Resolved.{IsHere, stored};
ghost use Rattle.dwz_graph.specs.Surroundings.{AreAmong};

use crate::refs::put_refs;
use crate::said::put_said;
use crate::source::Source;
use dwz_codes::DW_AT_SIBLING;
use dwz_forms::Raw;
use dwz_graph::Here;
use dwz_label::put_number;
use dwz_label_entries::{Scratch, behind_refs};
use dwz_model::{NoMemory, Pair};

// Appends what a value says. Its references begin at `next`; the answer is where they end.
fn put_value(
    source: &Source,
    out: &mut Vec<u8>,
    tops: &mut Vec<u32>,
    here: &Here,
    line: Option<usize>,
    end: u64,
    pair: &Pair,
    raw: &Raw,
    refs: &[u32],
    next: usize,
    scratch: &mut Scratch,
) -> Result<usize, NoMemory>
    requires ready { IsReady source.now }
    requires here { here.now.end ≤ entries_in (raw_of source.now) }
    requires refs { AreAmong (common_of source.now.common) (raw_of source.now) refs.now }
    ensures { (said : List (DwUnit ℕ)) (name : ℕ → CrossName) (u : RawUnit) (at : ℕ) (v : Value ℕ) (others : List ℕ)
        → KnowsSource source.now said name → IsHere (raw_of source.now) u here.now
        → KnowsLine (scope_at source.now u) (stored at end pair.now raw.now) source.now.tables.now line
        → meaning (scope_at source.now u) (stored at end pair.now raw.now) ≡ Ok v
        → map (place_of source.now) (drop next refs.now) ≡ value_refs v ++ others
        → IfOk result (λ behind. TellsValue name v (drop next refs.now) (drop behind refs.now) out.old.items out.new.items
        tops.old.items tops.new.items) }
{
    let named = put_said(
        source,
        out,
        here,
        line,
        end,
        pair,
        raw,
        &mut scratch.operands,
    )?;
    put_refs(
        source,
        out,
        tops,
        here,
        &scratch.operands,
        named,
        refs,
        next,
        &mut scratch.path,
    )?;
    Ok(behind_refs(refs, next, named))
}

/// Appends what an attribute says. `DW_AT_sibling` says nothing.
pub(crate) fn put_attr(
    source: &Source,
    out: &mut Vec<u8>,
    tops: &mut Vec<u32>,
    here: &Here,
    line: Option<usize>,
    end: u64,
    pair: &Pair,
    raw: &Raw,
    refs: &[u32],
    next: usize,
    scratch: &mut Scratch,
) -> Result<usize, NoMemory>
    requires ready { IsReady source.now }
    requires here { here.now.end ≤ entries_in (raw_of source.now) }
    requires refs { AreAmong (common_of source.now.common) (raw_of source.now) refs.now }
    ensures { (said : List (DwUnit ℕ)) (name : ℕ → CrossName) (u : RawUnit) (at : ℕ) (values : List RawAttr) (attrs : List (Attr ℕ))
        → KnowsSource source.now said name → IsHere (raw_of source.now) u here.now
        → KnowsLine (scope_at source.now u) (stored at end pair.now raw.now) source.now.tables.now line
        → AreAttrsMeant (scope_at source.now u) (place_of source.now) (drop next refs.now) (stored at end pair.now raw.now ∷ values) attrs
        → IfOk result (λ behind. TellsAttr (scope_at source.now u) (place_of source.now) values name attrs (drop behind refs.now)
        out.old.items out.new.items tops.old.items tops.new.items) }
{
    if pair.name == DW_AT_SIBLING {
        return Ok(next);
    }
    put_number(out, pair.name as u128)?;
    let behind = put_value(
        source, out, tops, here, line, end, pair, raw, refs, next, scratch,
    )?;
    Ok(behind)
}
