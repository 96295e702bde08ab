//! What is gathered of tops, file by file.

ghost use Rattle.std.specs.Prelude.{◌≡◌, ℕ, ◌+◌, ◌-◌, ◌<◌, ◌≤◌, ◌++◌, ◌^◌, false, true, List, Some, length, map, slice_get, slice_index};
ghost use Rattle.std.specs.Prelude.{slice_index_or, slice_range, vec_capacity, IfOk, OnOk};
ghost use Rattle.dwz_graph.specs.Across.{IsFileAmong, IsTopOf};
ghost use Rattle.dwz_def_tops.specs.Alike.{binds_itself};
ghost use Rattle.dwz_def_tops.specs.Spots.{Top, tops_of, units_of};
ghost use Rattle.dwz_def_reading.specs.Units.{entries_in};
ghost use Rattle.dwz_graph.specs.Files.{docs_of};
ghost use Rattle.dwz_graph.specs.Index.{Index};
ghost use Rattle.dwz_move_files.specs.Named.{AreNamed};
ghost use Rattle.dwz_def_reading.specs.Documents.{Doc};
ghost use Rattle.dwz_move_files.specs.Drafts.{AreInto, AreWithin, IsDraft, IsKnown, IsRowOf};
ghost use Rattle.dwz_move.specs.Bound.{HasTops, somes, target_of};
ghost use Rattle.dwz_unit.specs.declared.rows.RawEntry.{RawEntry};
ghost use Rattle.dwz_unit.specs.Rows.{shown_entries, units_of as raw_units};

use crate::ranges::{range_at, range_before};
use dwz_expr::Operand;
use dwz_graph::{File, Graph, Index, TopEntry};
use dwz_groups::{Edge, TopRow};
use dwz_model::{NoMemory, Place};
use dwz_move::{EntryBinds, EntryWeights, Named, TopRange, add_targets, tops_of};
use std::alloc::Global;

/// The rows of tops, whether each binds itself, and the tops that the references of those that don't go into, each under its top.
#[derive(Drop)]
pub(crate) struct Draft {
    pub(crate) rows: Vec<TopRow>,
    pub(crate) binds: Vec<bool>,
    pub(crate) pairs: Vec<Edge>,
}

// Nothing is gathered yet.
pub(crate) fn nothing(alloc: Global) -> Draft
    ensures { (docs : List (Doc ℕ)) (first : ℕ) → IsDraft docs first 0 result }
{
    Draft {
        rows: Vec::new(alloc),
        binds: Vec::new(alloc),
        pairs: Vec::new(alloc),
    }
}

/// Nothing is gathered yet, and there is room for so many tops, and for a target of each.
pub(crate) fn with_room(alloc: Global, tops: usize) -> Result<Draft, NoMemory>
    ensures nothing { IfOk result (λ draft. (docs : List (Doc ℕ)) (first : ℕ) → IsDraft docs first 0 draft) }
    ensures room { IfOk result (λ draft. (tops ≤ vec_capacity draft.rows) × (tops ≤ vec_capacity draft.binds)
        × (tops ≤ vec_capacity draft.pairs)) }
{
    Ok(Draft {
        rows: Vec::with_capacity(alloc, tops)?,
        binds: Vec::with_capacity(alloc, tops)?,
        pairs: Vec::with_capacity(alloc, tops)?,
    })
}

// The flag of a top.
#[inline(always)]
fn flag(flags: &[bool], n: u32) -> bool
    ensures { result ≡ slice_index_or flags.now n false }
{
    match flags.get(n as usize) {
        Some(flag) => *flag,
        None => false,
    }
}

// Where the references of an entry begin.
#[inline(always)]
fn start_of(starts: &[u32], i: u32) -> usize
    ensures { result ≡ slice_index starts.now i }
{
    match starts.get(i as usize) {
        Some(start) => *start as usize,
        None => 0,
    }
}

// The tops of references of the entries from one number to before another.
#[inline(always)]
fn part<'a>(into: &'a [Option<u32>], starts: &[u32], first: u32, end: u32) -> &'a [Option<u32>]
    ensures { slice_index starts.now first ≤ slice_index starts.now end → slice_index starts.now end ≤ length into.now
        → result.now ≡ slice_range into.now (slice_index starts.now first) (slice_index starts.now end) }
{
    match into.get(start_of(starts, first)..start_of(starts, end)) {
        Some(part) => part,
        None => &[],
    }
}

// The row of a top of a file, which stands from one entry to before another: where it stands, its unit, and what it weighs.
fn row_of(
    file: &File,
    weights: &EntryWeights,
    number: u32,
    n: u32,
    top: TopEntry,
    end: u32,
    named: &Named,
) -> TopRow
    requires weights { weights.now ≡ file.now.units }
    requires entry { top.entry < entries_in (raw_units file.now.units) }
    requires end { end ≤ entries_in (raw_units file.now.units) }
    ensures { (contents : List (List ℕ)) (bytes : List ℕ) (x : Index) (is : IsFileAmong contents number bytes file.now x) (k : ℕ) (t : Top)
        → IsTopOf contents number bytes file.now x is.kept.read.doc k top t → n ≡ t.number
        → ((r : RawEntry) → slice_get (shown_entries (raw_units file.now.units)) top.entry ≡ Some r → r.end ≡ end)
        → AreNamed (units_of (docs_of contents)) named.now → IsRowOf (docs_of contents) result t }
{
    TopRow {
        place: Place {
            file: number,
            offset: file.units.entry(top.entry).at,
        },
        unit: top.unit,
        weight: weights.top_weight(top.entry, end),
        movable: false,
        pinned: flag(named.by_uleb.as_slice(), n),
    }
}

// Whether a top binds itself: by what its entries hold, or since an operand anywhere names one of them.
fn binds(
    file: &File,
    entry_binds: &EntryBinds,
    own: &TopRange,
    into: &[Option<u32>],
    n: u32,
    top: TopEntry,
    end: u32,
    named: &Named,
    operands: &mut Vec<Operand>,
) -> Result<bool, NoMemory>
    requires binds { entry_binds.now ≡ file.now.units }
    requires end { end ≤ entries_in (raw_units file.now.units) }
    ensures { (contents : List (List ℕ)) (number : ℕ) (bytes : List ℕ) (x : Index) (is : IsFileAmong contents number bytes file.now x)
        (k : ℕ) (t : Top) → IsTopOf contents number bytes file.now x is.kept.read.doc k top t → n ≡ t.number
        → ((r : RawEntry) → slice_get (shown_entries (raw_units file.now.units)) top.entry ≡ Some r → r.end ≡ end)
        → AreInto contents number bytes file.now x is into.now → HasTops (tops_of (units_of (docs_of contents))) t.unit own.now
        → AreNamed (units_of (docs_of contents)) named.now → IfOk result (λ b. b ≡ binds_itself (units_of (docs_of contents)) t) }
{
    let starts = file.resolved.starts.as_slice();
    if flag(named.by_any.as_slice(), n) {
        return Ok(true);
    }
    entry_binds.top_binds(own, into, starts, top.entry, end, operands)
}

// Adds the tops that the references of a top go into, if it doesn't bind itself.
#[inline(always)]
fn put_targets(
    pairs: &mut Vec<Edge>,
    top: u32,
    bound: bool,
    into: &[Option<u32>],
) -> Result<(), NoMemory>
    ensures bound { bound ≡ true → OnOk result (pairs.new.items ≡ pairs.old.items) }
    ensures free { bound ≡ false → OnOk result (pairs.new.items ≡ pairs.old.items ++ map (target_of top) (somes into.now)) }
{
    if bound {
        return Ok(());
    }
    add_targets(pairs, top, into)
}

// Adds a top of a file.
fn put_top(
    draft: &mut Draft,
    file: &File,
    weights: &EntryWeights,
    entry_binds: &EntryBinds,
    number: u32,
    own: &TopRange,
    into: &[Option<u32>],
    n: u32,
    top: TopEntry,
    named: &Named,
    operands: &mut Vec<Operand>,
) -> Result<(), NoMemory>
    requires weights { weights.now ≡ file.now.units }
    requires binds { entry_binds.now ≡ file.now.units }
    requires entry { top.entry < entries_in (raw_units file.now.units) }
    requires end { (r : RawEntry) → slice_get (shown_entries (raw_units file.now.units)) top.entry ≡ Some r
        → r.end ≤ entries_in (raw_units file.now.units) }
    ensures { (contents : List (List ℕ)) (bytes : List ℕ) (x : Index) (is : IsFileAmong contents number bytes file.now x) (k : ℕ) (t : Top)
        → IsTopOf contents number bytes file.now x is.kept.read.doc k top t → n ≡ t.number
        → AreInto contents number bytes file.now x is into.now → HasTops (tops_of (units_of (docs_of contents))) t.unit own.now
        → AreNamed (units_of (docs_of contents)) named.now → slice_get (tops_of (units_of (docs_of contents))) n ≡ Some t → (from count : ℕ)
        → from + count ≡ n → IsDraft (docs_of contents) from count draft.old
        → OnOk result (IsDraft (docs_of contents) from (count + 1) draft.new) }
{
    let end = file.units.entry(top.entry).end;
    let bound = binds(file, entry_binds, own, into, n, top, end, named, operands)?;
    draft
        .rows
        .push(row_of(file, weights, number, n, top, end, named))?;
    draft.binds.push(bound)?;
    let starts = file.resolved.starts.as_slice();
    put_targets(
        &mut draft.pairs,
        n,
        bound,
        part(into, starts, top.entry, end),
    )
}

/// What is found once of a file, before its tops are gathered: for each reference the top that it goes into, what its entries weigh, and
/// which of them bind.
#[derive(Drop)]
pub(crate) struct KnownFile<'f, 'a> {
    into: Vec<Option<u32>>,
    weights: EntryWeights<'f, 'a>,
    binds: EntryBinds<'f, 'a>,
}

/// Finds that.
pub(crate) fn known_of<'f, 'a>(
    alloc: Global,
    file: &'f File<'a>,
    index: &Index,
) -> Result<KnownFile<'f, 'a>, NoMemory>
    requires { length index.now.steps < 2 ^ 32 }
    ensures { IfOk result (IsKnown file.now index.now) }
{
    let into = tops_of(alloc, index, file.resolved.refs.as_slice())?;
    let weights = EntryWeights::new(alloc, &file.units)?;
    let binds = EntryBinds::new(alloc, &file.units)?;
    Ok(KnownFile {
        into,
        weights,
        binds,
    })
}

/// Adds the tops of a file from the one at a place among them to before another.
pub(crate) fn put_tops(
    draft: &mut Draft,
    file: &File,
    index: &Index,
    number: u32,
    known: &KnownFile,
    start: usize,
    end: usize,
    named: &Named,
    operands: &mut Vec<Operand>,
) -> Result<(), NoMemory>
    requires room { index.now.starts.top + length index.now.tops < 2 ^ 32 }
    requires tops { AreWithin (raw_units file.now.units) index.now.tops }
    requires known { IsKnown file.now index.now known.now }
    requires within { (start ≤ end) × (end ≤ length index.now.tops) }
    ensures { (contents : List (List ℕ)) (bytes : List ℕ) (is : IsFileAmong contents number bytes file.now index.now)
        → AreNamed (units_of (docs_of contents)) named.now → (from count : ℕ) → from + count ≡ index.now.starts.top + start
        → IsDraft (docs_of contents) from count draft.old
        → OnOk result (IsDraft (docs_of contents) from (count + (end - start)) draft.new) }
{
    let first = index.starts().top;
    let tops = index.tops();
    let mut own = range_before(tops, start, first);
    for i in start..end {
        own = range_at(own, tops, i, first);
        let n = first + i as u32;
        put_top(
            draft,
            file,
            &known.weights,
            &known.binds,
            number,
            &own,
            known.into.as_slice(),
            n,
            tops[i],
            named,
            operands,
        )?;
    }
    Ok(())
}

/// Adds the tops of a file.
pub(crate) fn put_file(
    alloc: Global,
    draft: &mut Draft,
    file: &File,
    index: &Index,
    number: u32,
    named: &Named,
    operands: &mut Vec<Operand>,
) -> Result<(), NoMemory>
    requires few { length index.now.steps < 2 ^ 32 }
    requires room { index.now.starts.top + length index.now.tops < 2 ^ 32 }
    requires tops { AreWithin (raw_units file.now.units) index.now.tops }
    ensures { (contents : List (List ℕ)) (bytes : List ℕ) (is : IsFileAmong contents number bytes file.now index.now)
        → AreNamed (units_of (docs_of contents)) named.now → (from count : ℕ) → from + count ≡ index.now.starts.top
        → IsDraft (docs_of contents) from count draft.old
        → OnOk result (IsDraft (docs_of contents) from (count + length index.now.tops) draft.new) }
{
    let known = known_of(alloc, file, index)?;
    let end = index.tops().len();
    put_tops(draft, file, index, number, &known, 0, end, named, operands)
}

/// What is gathered of the tops of all files.
pub(crate) fn gather(alloc: Global, graph: &Graph, named: &Named) -> Result<Draft, NoMemory>
    requires few { length graph.now.given < 2 ^ 32 }
    ensures draft { AreNamed (units_of (docs_of graph.now.given)) named.now
        → IfOk result (IsDraft (docs_of graph.now.given) 0 (length (tops_of (units_of (docs_of graph.now.given))))) }
    ensures few { IfOk result (λ draft. length (tops_of (units_of (docs_of graph.now.given))) < 2 ^ 32) }
{
    let indexes = graph.indexes();
    let mut draft = with_room(alloc, named.by_any.len())?;
    let mut operands = Vec::new(alloc);
    for (number, file) in graph.files().iter().enumerate() {
        put_file(
            alloc,
            &mut draft,
            file,
            &indexes[number],
            number as u32,
            named,
            &mut operands,
        )?;
    }
    Ok(draft)
}
