//! Values, with the entries that they name.

ghost use Rattle.std.specs.Prelude.{◌≡◌, ℕ, ◌<◌, ◌≤◌, ◌∷◌, List, Some, Ok, IfOk, drop, slice_get};
ghost use Rattle.dwz_def_tops.specs.Spots.{EntryName};
ghost use Rattle.dwz_label_entries.specs.Plain.{KnowsLine};
ghost use Rattle.dwz_label_entries.specs.Sources.{IsReady, KnowsUnit, TellsAttr, TellsValue, raw_of, scope_at};
ghost use Rattle.dwz_def_reading.specs.Entries.{RawAttr};
ghost use Rattle.dwz_def_reading.specs.Units.{RawUnit, entries_in};
ghost use Rattle.dwz_graph.specs.Rows.{AreAttrsMeant, AreTargets};
ghost use Rattle.dwz_def_reading.specs.Documents.{Attr, Value};
ghost use Rattle.dwz_def_reading.specs.Meant.{meaning};
ghost use Rattle.dwz_graph.specs.Named.{value_refs};
ghost use Rattle.dwz_graph.specs.Resolved.{stored};

use crate::plain::put_plain;
use crate::refs::{behind_refs, put_refs};
use crate::source::{Scratch, Source};
use dwz_codes::DW_AT_SIBLING;
use dwz_forms::Raw;
use dwz_graph::Here;
use dwz_label::put_number;
use dwz_model::{NoMemory, Pair};

// Appends what a value says. Its references begin at `next`; the answer is where they end.
#[inline(always)]
fn put_value(
    source: &Source,
    out: &mut Vec<u8>,
    here: &Here,
    line: Option<usize>,
    end: u64,
    pair: &Pair,
    raw: &Raw,
    next: usize,
    scratch: &mut Scratch,
) -> Result<usize, NoMemory>
    requires { IsReady source.now here.now }
    ensures { (u : RawUnit) (name : ℕ → EntryName) (at : ℕ) (v : Value ℕ) → KnowsUnit source.now here.now line u name
        → KnowsLine (scope_at source.now u) (stored at end pair.now raw.now) source.now.tables.now line
        → meaning (scope_at source.now u) (stored at end pair.now raw.now) ≡ Ok v
        → AreTargets (raw_of source.now) (drop next source.now.refs.now) (value_refs v)
        → IfOk result (λ behind. TellsValue name v (drop next source.now.refs.now) (drop behind source.now.refs.now) out.old.items
        out.new.items) }
{
    let named = put_plain(
        source.alloc,
        out,
        source.sections,
        source.tables,
        here,
        line,
        end,
        pair,
        raw,
        &mut scratch.operands,
    )?;
    put_refs(
        out,
        source.units,
        source.sections,
        source.index,
        source.refs,
        here,
        &scratch.operands,
        named,
        next,
        &mut scratch.path,
    )?;
    Ok(behind_refs(source.refs, next, named))
}

/// Appends what an attribute says. `DW_AT_sibling` says nothing.
pub(crate) fn put_attr(
    source: &Source,
    out: &mut Vec<u8>,
    here: &Here,
    line: Option<usize>,
    end: u64,
    pair: &Pair,
    raw: &Raw,
    next: usize,
    scratch: &mut Scratch,
) -> Result<usize, NoMemory>
    requires { IsReady source.now here.now }
    ensures { (u : RawUnit) (name : ℕ → EntryName) (at : ℕ) (values : List RawAttr) (attrs : List (Attr ℕ))
        → KnowsUnit source.now here.now line u name
        → KnowsLine (scope_at source.now u) (stored at end pair.now raw.now) source.now.tables.now line
        → AreAttrsMeant (raw_of source.now) (scope_at source.now u) (drop next source.now.refs.now)
        (stored at end pair.now raw.now ∷ values) attrs
        → IfOk result (λ behind. TellsAttr (raw_of source.now) (scope_at source.now u) values name attrs (drop next source.now.refs.now)
        (drop behind source.now.refs.now) out.old.items out.new.items) }
{
    if pair.name == DW_AT_SIBLING {
        return Ok(next);
    }
    put_number(out, pair.name as u128)?;
    let behind = put_value(source, out, here, line, end, pair, raw, next, scratch)?;
    Ok(behind)
}
