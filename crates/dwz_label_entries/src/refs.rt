//! The entries that a value names, one behind the other.

ghost use Rattle.std.specs.Prelude.{◌≡◌, ℕ, ◌<◌, ◌≤◌, ◌++◌, List, None, true, OnOk, length, map, drop};
ghost use Rattle.std.specs.List.{flat_map};
ghost use Rattle.dwz_def_tops.specs.Spots.{EntryName};
ghost use Rattle.dwz_label_entries.specs.Plain.{NamesSo};
ghost use Rattle.dwz_label_entries.specs.Targets.{KnowsNames};
ghost use Rattle.dwz_def_reading.specs.Units.{RawUnit, entries_in};
ghost use Rattle.dwz_graph.specs.Rows.{AreTargets};
ghost use Rattle.dwz_label.specs.Labels.{each_counted, target_label};
ghost use Rattle.dwz_def_reading.specs.declared.exprs.Operand.{Operand as OperandOfSpecs};
ghost use Rattle.dwz_def_reading.specs.Documents.{Value};
ghost use Rattle.dwz_def_reading.specs.Exprs.{first_unnamed};
ghost use Rattle.dwz_def_reading.specs.Meanings.{MeaningContext, target_of, targets};
ghost use Rattle.dwz_graph.specs.Named.{value_refs};
ghost use Rattle.dwz_graph.specs.Operands.{is_named};
ghost use Rattle.dwz_graph.specs.Resolved.{AreEntries, IsHere, scope_in};
ghost use Rattle.dwz_def_reading.specs.Lists.{Each};
ghost use Rattle.dwz_unit.specs.Rows.{units_of};

use crate::named::Named;
use crate::targets::{behind, part, put_target, put_targets};
use dwz_expr::Operand;
use dwz_graph::{Here, Index, InputSections, entry_of};
use dwz_label::put_number;
use dwz_model::NoMemory;
use dwz_unit::Units;

// Appends so many of the entries that are named in order, from the next one on, behind their number.
fn put_next(
    out: &mut Vec<u8>,
    index: &Index,
    refs: &[u32],
    next: usize,
    count: usize,
    path: &mut Vec<u32>,
) -> Result<(), NoMemory>
    requires { Each (λ i. i < length index.now.steps) refs.now }
    ensures { (raw : List RawUnit) (name : ℕ → EntryName) (places : List ℕ) → KnowsNames raw name index.now
        → AreTargets raw (drop next refs.now) places → length places ≡ count
        → OnOk result (out.new.items ≡ out.old.items ++ each_counted target_label (map name places)) }
{
    put_number(out, count as u128)?;
    put_targets(out, index, part(refs, next, count), path)?;
    Ok(())
}

// Appends the entry that an operand names.
fn put_named(
    out: &mut Vec<u8>,
    units: &Units,
    sections: &InputSections,
    index: &Index,
    here: &Here,
    operand: &Operand,
    path: &mut Vec<u32>,
) -> Result<(), NoMemory>
    requires here { here.now.end ≤ entries_in (units_of units.now) }
    requires steps { length index.now.steps ≡ entries_in (units_of units.now) }
    ensures { (u : RawUnit) (name : ℕ → EntryName) → IsHere (units_of units.now) u here.now → KnowsNames (units_of units.now) name index.now
        → is_named (scope_in sections.now (units_of units.now) u) operand.now ≡ true
        → OnOk result (out.new.items ≡ out.old.items
        ++ target_label (name (target_of (scope_in sections.now (units_of units.now) u) operand.now))) }
{
    match entry_of(units, sections, here, operand) {
        Some(entry) => put_target(out, index, entry, path),
        None => Ok(()),
    }
}

// Appends the entries that operands name.
fn put_operands(
    out: &mut Vec<u8>,
    units: &Units,
    sections: &InputSections,
    index: &Index,
    here: &Here,
    operands: &[Operand],
    path: &mut Vec<u32>,
) -> Result<(), NoMemory>
    requires here { here.now.end ≤ entries_in (units_of units.now) }
    requires steps { length index.now.steps ≡ entries_in (units_of units.now) }
    ensures { (u : RawUnit) (name : ℕ → EntryName) → IsHere (units_of units.now) u here.now → KnowsNames (units_of units.now) name index.now
        → first_unnamed (is_named (scope_in sections.now (units_of units.now) u)) operands.now ≡ None
        → OnOk result (out.new.items ≡ out.old.items
        ++ flat_map target_label (map name (targets (scope_in sections.now (units_of units.now) u) operands.now))) }
{
    for operand in operands {
        put_named(out, units, sections, index, here, operand, path)?;
    }
    Ok(())
}

/// Appends the entries that a value names, behind their number.
pub(crate) fn put_refs(
    out: &mut Vec<u8>,
    units: &Units,
    sections: &InputSections,
    index: &Index,
    refs: &[u32],
    here: &Here,
    operands: &[Operand],
    named: Named,
    next: usize,
    path: &mut Vec<u32>,
) -> Result<(), NoMemory>
    requires here { here.now.end ≤ entries_in (units_of units.now) }
    requires steps { length index.now.steps ≡ entries_in (units_of units.now) }
    requires refs { AreEntries (units_of units.now) refs.now }
    ensures { (u : RawUnit) (name : ℕ → EntryName) (v : Value ℕ) → IsHere (units_of units.now) u here.now
        → KnowsNames (units_of units.now) name index.now → NamesSo (scope_in sections.now (units_of units.now) u) v operands.now named
        → AreTargets (units_of units.now) (drop next refs.now) (value_refs v)
        → OnOk result (out.new.items ≡ out.old.items ++ each_counted target_label (map name v.refs)) }
{
    match named {
        Named::Next(count) => put_next(out, index, refs, next, count, path),
        Named::Kept => {
            put_number(out, operands.len() as u128)?;
            put_operands(out, units, sections, index, here, operands, path)?;
            Ok(())
        }
    }
}

/// Where the references go on behind those that a value names.
#[inline(always)]
pub fn behind_refs(refs: &[u32], next: usize, named: Named) -> usize
    ensures { (s : MeaningContext ℕ) (v : Value ℕ) (operands : List OperandOfSpecs) → NamesSo s v operands named
        → drop result refs.now ≡ drop (length (value_refs v)) (drop next refs.now) }
{
    match named {
        Named::Next(count) => behind(refs, next, count),
        Named::Kept => next,
    }
}
