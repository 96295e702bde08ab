//! How the ranges of new units are found, unit by unit.

ghost use Rattle.std.specs.Prelude.{◌≡◌, ℕ, ◌+◌, ◌<◌, ◌≤◌, ◌^◌, ◌++◌, List, Ok, Some, [], Option, length, map, IfOk, OnOk, slice_get, slice_index_or};
ghost use Rattle.std.specs.Option.{option_map};
ghost use Rattle.dwz_model.specs.Lists.{Each};
ghost use Rattle.dwz_def_reading.specs.Entries.{RawEntry};
ghost use Rattle.dwz_def_reading.specs.Trees.{Forest};
ghost use Rattle.dwz_def_reading.specs.Units.{RawUnit, entries_in};
ghost use Rattle.dwz_graph.specs.Building.{HasList, IsList};
ghost use Rattle.dwz_def_cross.specs.Tops.{WithCommon};
ghost use Rattle.dwz_imports.specs.Said.{SaysBeside, raw_beside};
ghost use Rattle.dwz_expand_sources.specs.Building.{AreImports, AreImportsOf, AreSpans, kept_ranges, known_view, part_ranges, range_if, ranges_in, stored_shape};
ghost use Rattle.dwz_expand_sources.specs.Building.{with_unit, with_units};
ghost use Rattle.dwz_expand_sources.specs.Sources.{AreSources};
ghost use Rattle.dwz_unit.specs.Rows.{shown_units, units_of};

use crate::sources::{NewUnit, SourceRange, Sources};
use crate::spans::{UnitSpan, unit_spans};
use dwz_codes::{DW_UT_COMPILE, DW_UT_PARTIAL};
use dwz_groups::Groups;
use dwz_model::NoMemory;
use dwz_unit::{RawUnit as RawUnitOfCode, Units};
use std::alloc::Global;

// What is known of the entries of a file.
#[derive(Clone, Copy)]
struct Known<'a> {
    // Which of them import a partial unit.
    importing: &'a [bool],
    // What each unit imports, by numbers of units.
    imports: &'a Groups,
    // Where the units of the file begin and end, and those of the common file.
    spans: &'a [UnitSpan],
}

// Adds the entries from one number to before another, if there are any.
fn put_range(ranges: &mut Vec<SourceRange>, first: u32, end: u32) -> Result<(), NoMemory>
    ensures { OnOk result (ranges.new.items ≡ ranges.old.items ++ range_if first end) }
{
    if first < end {
        ranges.push(SourceRange { first, end })?;
    }
    Ok(())
}

// Adds the entries of a list that import no unit.
fn put_kept(
    ranges: &mut Vec<SourceRange>,
    units: &Units,
    importing: &[bool],
    first: u32,
    end: u32,
) -> Result<(), NoMemory>
    requires rows { HasList (units_of units.now) first end }
    requires marks { length importing.now ≡ entries_in (units_of units.now) }
    ensures { (list : Forest RawEntry) → IsList (units_of units.now) first end list
        → OnOk result (ranges.new.items ≡ ranges.old.items ++ kept_ranges importing.now first first list) }
{
    let mut from = first;
    let mut at = first;
    while at < end {
        let next = units.entry(at).end;
        if importing[at as usize] {
            put_range(ranges, from, at)?;
            from = next;
        }
        at = next;
    }
    put_range(ranges, from, end)
}

// Adds what stands in the roots of units.
fn put_parts(
    ranges: &mut Vec<SourceRange>,
    spans: &[UnitSpan],
    parts: &[u32],
) -> Result<(), NoMemory>
    requires parts { Each (λ v. v < length spans.now) parts.now }
    requires spans { AreSpans spans.now }
    ensures { OnOk result (ranges.new.items ≡ ranges.old.items ++ part_ranges spans.now parts.now) }
{
    for part in parts {
        let UnitSpan { root, end } = spans[*part as usize];
        put_range(ranges, root + 1, end)?;
    }
    Ok(())
}

// Adds what stands below the root of the unit with a number, which isn't partial.
fn put_below(
    ranges: &mut Vec<SourceRange>,
    units: &Units,
    known: &Known,
    number: u32,
    unit: &RawUnitOfCode,
) -> Result<(), NoMemory>
    requires shown { slice_get (shown_units (units_of units.now)) number ≡ Some unit.now }
    requires imports { AreImportsOf (length (units_of units.now)) (length known.now.spans.now) (entries_in (units_of units.now))
        known.now.imports.now known.now.importing.now }
    requires spans { AreSpans known.now.spans.now }
    ensures { (u : RawUnit) → slice_get (units_of units.now) number ≡ Some u
        → OnOk result (ranges.new.items ≡ ranges.old.items ++ ranges_in (known_view known.now) number unit.now.first (stored_shape u)) }
{
    let end = units.entry(unit.first).end;
    let first = unit.first + 1;
    if unit.kind != DW_UT_COMPILE {
        return put_range(ranges, first, end);
    }
    put_kept(ranges, units, known.importing, first, end)?;
    put_parts(ranges, known.spans, known.imports.get(number as usize))
}

// Adds the unit with a number, unless it is partial.
fn put_unit(
    sources: &mut Sources,
    units: &Units,
    known: &Known,
    number: u32,
    unit: &RawUnitOfCode,
) -> Result<(), NoMemory>
    requires shown { slice_get (shown_units (units_of units.now)) number ≡ Some unit.now }
    requires imports { AreImportsOf (length (units_of units.now)) (length known.now.spans.now) (entries_in (units_of units.now))
        known.now.imports.now known.now.importing.now }
    requires spans { AreSpans known.now.spans.now }
    ensures { (u : RawUnit) → slice_get (units_of units.now) number ≡ Some u
        → OnOk result (sources.new ≡ with_unit (known_view known.now) number unit.now.first (stored_shape u) sources.old) }
{
    if unit.kind == DW_UT_PARTIAL {
        return Ok(());
    }
    let first = sources.ranges.len();
    put_below(&mut sources.ranges, units, known, number, unit)?;
    let end = sources.ranges.len();
    sources.units.push(NewUnit {
        unit: number,
        root: unit.first,
        first,
        end,
    })?;
    Ok(())
}

// Adds all units that aren't partial.
fn put_units(sources: &mut Sources, units: &Units, known: &Known) -> Result<(), NoMemory>
    requires imports { AreImportsOf (length (units_of units.now)) (length known.now.spans.now) (entries_in (units_of units.now))
        known.now.imports.now known.now.importing.now }
    requires spans { AreSpans known.now.spans.now }
    ensures { OnOk result (sources.new ≡ with_units (known_view known.now) 0 0 (map stored_shape (units_of units.now)) sources.old) }
{
    for n in 0..units.len() {
        let unit = units.unit(n);
        put_unit(sources, units, known, n, &unit)?;
    }
    Ok(())
}

/// The plan of a file and the common file beside which it was read, by what each unit imports and which entries import a unit.
pub(crate) fn plan_of(
    alloc: Global,
    own: &Units,
    common: Option<&Units>,
    imports: &Groups,
    importing: &[bool],
) -> Result<Sources, NoMemory>
    requires room { entries_in (units_of own.now) + entries_in (raw_beside (option_map (λ u. u.now) common)) < 2 ^ 32 }
    requires imports { AreImportsOf (length (units_of own.now)) (length (units_of own.now) + length (raw_beside (option_map (λ u. u.now) common)))
        (entries_in (units_of own.now)) imports.now importing.now }
    ensures { (w : WithCommon ℕ) → SaysBeside (units_of own.now) (raw_beside (option_map (λ u. u.now) common.entry)) w
        → AreImports w imports.now importing.now → IfOk result (λ s. AreSources w s) }
{
    let spans = unit_spans(alloc, own, common)?;
    let known = Known {
        importing,
        imports,
        spans: spans.as_slice(),
    };
    let mut sources = Sources {
        units: Vec::new(alloc),
        ranges: Vec::new(alloc),
    };
    put_units(&mut sources, own, &known)?;
    Ok(sources)
}
