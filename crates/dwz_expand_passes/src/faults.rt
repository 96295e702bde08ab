//! The first value of a file that can't be copied.

ghost use Rattle.std.specs.Prelude.{◌≡◌, ℕ, ◌<◌, ◌∷◌, IfOk, Some, slice_get};
ghost use Rattle.dwz_model.specs.Lists.{Each};
ghost use Rattle.dwz_def_reading.specs.Documents.{DwUnit};
ghost use Rattle.dwz_def_cross.specs.Tops.{WithCommon, units_with_common};
ghost use Rattle.dwz_def_expand.specs.Chosen.{choice, paths_at};
ghost use Rattle.dwz_def_expand.specs.Refusals.{Where, sites, sites_in, sites_of, nodes};
ghost use Rattle.dwz_def_expand.specs.Source.{Copy, source_unit};
ghost use Rattle.dwz_expand_sources.specs.Index.{ListedEntry};
ghost use Rattle.dwz_encode.specs.Shown.{Keys};
ghost use Rattle.dwz_graph.specs.Files.{refused_file};
ghost use Rattle.dwz_graph.specs.Surroundings.{sources_view};
ghost use Rattle.dwz_expand_sources.specs.Imports.{same};
ghost use Rattle.dwz_expand_sources.specs.Numbers.{HasRanges};
ghost use Rattle.dwz_expand_sources.specs.Sources.{AreSources, IsNewUnit, IsRange, all_entries, in_range};
ghost use Rattle.dwz_expand_passes.specs.Faults.{AreReady, FirstRefusalIs, KnowsBoth, ValueRefusal, entry_sites};
ghost use Rattle.dwz_expand_passes.specs.Paths.{IsPathsOf};
ghost use Rattle.dwz_expand_passes.specs.Files.{IsKnownReady, Knows, entry_count, forms_of, raw_in};
ghost use Rattle.dwz_def_reading.specs.Units.{entries_in};

use crate::files::{Known, SourceFile};
use crate::paths::TablePaths;
use crate::values::put_attrs;
use dwz_expand_layout::{NewAttr, NewOperand};
use dwz_expand_sources::{Copies, CopyNumbers, NewUnit, SourceRange, Sources};
use dwz_expr::Operand;
use dwz_graph::InputSections;
use dwz_model::{GraphErr, NoMemory, ReadErr, Refusal};
use std::alloc::Global;

// Room for what an entry stores.
#[derive(Drop)]
struct Room<'a> {
    attrs: Vec<NewAttr<'a>>,
    operands: Vec<NewOperand>,
    read: Vec<Operand>,
}

// A fault of the file with a number.
fn in_file(file: u32, error: ReadErr) -> GraphErr
    ensures { result ≡ refused_file file error }
{
    match error {
        ReadErr::Refused(fault) => GraphErr::Refused(Refusal {
            file,
            section: fault.section,
            at: fault.at,
            reason: fault.reason,
        }),
        ReadErr::NoMemory => GraphErr::NoMemory,
    }
}

// The number of the file in which the entry with a number stands: that of the common file is 1.
fn file_of(known: &Known, entry: u32) -> u32
    ensures own { entry < entries_in (raw_in known.now.own) → result ≡ 0 }
    ensures other { (entry < entries_in (raw_in known.now.own) → ⊥) → result ≡ 1 }
{
    if entry < known.own.units.entries() {
        0
    } else {
        1
    }
}

// Each value of the entry with a number can be copied into the new unit at hand. Refused at the first that can't be.
fn check_entry<'a>(known: &Known<'_, 'a>, entry: u32, room: &mut Room<'a>) -> Result<(), GraphErr>
    requires ready { IsKnownReady known.now }
    requires there { entry < entry_count known.now }
    ensures { (w : WithCommon ℕ) (keys : Keys (Copy ℕ)) (stands : Where ℕ) (d : ListedEntry ℕ) → Knows known.now w keys stands
        → slice_get (all_entries w) entry ≡ Some d
        → FirstRefusalIs (ValueRefusal w (forms_of known.now w) stands) (sites_of known.now.unit d.0.at 0 d.0.attrs) result }
{
    match put_attrs(
        known,
        entry,
        &mut room.attrs,
        &mut room.operands,
        &mut room.read,
    ) {
        Ok(()) => Ok(()),
        Err(error) => Err(in_file(file_of(known, entry), error)),
    }
}

// The same of the entries of a range.
fn check_range<'a>(
    known: &Known<'_, 'a>,
    range: &SourceRange,
    room: &mut Room<'a>,
) -> Result<(), GraphErr>
    requires ready { IsKnownReady known.now }
    requires range { IsRange (entry_count known.now) range.now }
    ensures { (w : WithCommon ℕ) (keys : Keys (Copy ℕ)) (stands : Where ℕ) → Knows known.now w keys stands
        → FirstRefusalIs (ValueRefusal w (forms_of known.now w) stands) (entry_sites known.now.unit (in_range
        (all_entries w) range.now)) result }
{
    for entry in range.first..range.end {
        check_entry(known, entry, room)?;
    }
    Ok(())
}

// The same of the entries of a new unit, which is at hand.
fn check_unit<'a>(
    known: &Known<'_, 'a>,
    ranges: &[SourceRange],
    unit: &NewUnit,
    room: &mut Room<'a>,
) -> Result<(), GraphErr>
    requires ready { IsKnownReady known.now }
    requires ranges { Each (IsRange (entry_count known.now)) ranges.now }
    requires root { unit.now.root < entry_count known.now }
    requires unit { HasRanges ranges.now unit.now }
    ensures { (w : WithCommon ℕ) (keys : Keys (Copy ℕ)) (stands : Where ℕ) (u v : DwUnit ℕ) → Knows known.now w keys stands
        → IsNewUnit w ranges.now unit.now u → v ≡ source_unit same (units_with_common w) u
        → FirstRefusalIs (ValueRefusal w (forms_of known.now w) stands) (sites_in known.now.unit (v.root ∷ nodes v.below)) result }
{
    check_entry(known, unit.root, room)?;
    for range in &ranges[unit.first..unit.end] {
        check_range(known, range, room)?;
    }
    Ok(())
}

// The rows of the line table at a place of `.debug_line`, if there is one; those at hand are kept, where they are of that.
fn paths_of(
    alloc: Global,
    sections: &InputSections,
    place: Option<u32>,
    paths: TablePaths,
) -> Result<TablePaths, NoMemory>
    requires { IsPathsOf (paths_at (sources_view sections.now) paths.place) paths }
    ensures place { IfOk result (λ t. t.place ≡ place) }
    ensures rows { IfOk result (λ t. IsPathsOf (paths_at (sources_view sections.now) place) t) }
{
    if paths.place == place {
        return Ok(paths);
    }
    TablePaths::read(alloc, sections, place)
}

/// The first value that can't be copied into the new units (DWARF 5, 3.2.5), in the order of units, of entries and of values.
///
/// Refused as `put_attrs` says; the file's own number is 0, and that of the common file is 1. Answers nothing where each can be copied.
pub fn first_fault<'a>(
    alloc: Global,
    own: &SourceFile<'_, 'a>,
    common: &Option<SourceFile<'_, 'a>>,
    sources: &Sources,
    numbers: &CopyNumbers,
    copies: &mut Copies,
) -> Result<(), GraphErr>
    requires { AreReady own.now common.now sources.now numbers.now.roots copies.old }
    ensures { (w : WithCommon ℕ) (keys : Keys (Copy ℕ)) (stands : Where ℕ) → KnowsBoth own.now common.now w keys stands
        → AreSources w sources.now
        → FirstRefusalIs (ValueRefusal w (choice same w (sources_view own.now.sections.now)) stands) (sites same w) result }
{
    let mut room = Room {
        attrs: Vec::new(alloc),
        operands: Vec::new(alloc),
        read: Vec::new(alloc),
    };
    let mut paths = TablePaths::read(alloc, own.sections, None)?;
    let units = sources.units();
    for n in 0..units.len() {
        copies.enter(sources, numbers, n);
        let unit = units[n];
        let place = own.heres[unit.unit as usize].line;
        paths = paths_of(alloc, own.sections, place, paths)?;
        let known = Known {
            alloc,
            own: *own,
            common: *common,
            copies: &*copies,
            unit: n,
            paths: &paths,
        };
        check_unit(&known, sources.ranges(), &unit, &mut room)?;
    }
    Ok(())
}
