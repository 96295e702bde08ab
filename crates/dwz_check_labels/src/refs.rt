//! The entries that a value names, one behind the other.

ghost use Rattle.std.specs.Prelude.{◌≡◌, ℕ, ◌<◌, ◌≤◌, ◌++◌, ◌∷◌, [], List, None, true, OnOk, length, map, drop};
ghost use Rattle.std.specs.List.{flat_map};
ghost use Rattle.dwz_def_reading.specs.declared.exprs.Operand.{Operand as OperandOfSpecs};
ghost use Rattle.dwz_def_reading.specs.Documents.{DwUnit, Value};
ghost use Rattle.dwz_def_reading.specs.Exprs.{first_unnamed};
ghost use Rattle.dwz_def_reading.specs.Meanings.{target_of, targets};
ghost use Rattle.dwz_def_reading.specs.Units.{RawUnit, entries_in};
ghost use Rattle.dwz_def_check.specs.CrossLabels.{name_label, names_into};
ghost use Rattle.dwz_def_check.specs.CrossNames.{CrossName};
ghost use Rattle.dwz_label.specs.Labels.{each_counted};
ghost use Rattle.dwz_label_entries.specs.Plain.{NamesSo};
ghost use Rattle.dwz_check_labels.specs.Files.{IsReady, KnowsSource, common_of, place_of, raw_of, scope_at};
ghost use Rattle.dwz_check_labels.specs.Told.{Tells};
ghost use Rattle.dwz_graph.specs.Named.{value_refs};
ghost use Rattle.dwz_graph.specs.Operands.{is_named};
ghost use Rattle.dwz_graph.specs.Resolved.{IsHere};
ghost use Rattle.dwz_graph.specs.Surroundings.{AreAmong, entries_among};

use crate::names::put_name;
use crate::source::Source;
use dwz_expr::Operand;
use dwz_graph::{Here, entry_of};
use dwz_label::put_number;
use dwz_label_entries::{Named, part};
use dwz_model::NoMemory;

// Appends what the entry with a number is called: one of the file, or of the common file behind these.
fn put_entry_name(
    source: &Source,
    out: &mut Vec<u8>,
    tops: &mut Vec<u32>,
    entry: u32,
    steps: &mut Vec<u32>,
) -> Result<(), NoMemory>
    requires ready { IsReady source.now }
    requires there { entry < entries_among (common_of source.now.common) (raw_of source.now) }
    ensures { (said : List (DwUnit ℕ)) (name : ℕ → CrossName) → KnowsSource source.now said name
        → OnOk result (Tells (name_label (name (place_of source.now entry))) (names_into (name (place_of source.now entry) ∷ []))
        out.old.items out.new.items tops.old.items tops.new.items) }
{
    let own = source.own.units.entries();
    if entry < own {
        put_name(out, tops, &source.own, entry, steps)?;
        return Ok(());
    }
    match &source.common {
        Some(common) => {
            put_name(out, tops, common, entry - own, steps)?;
            Ok(())
        }
        None => unreachable!(),
    }
}

// The same of entries one after the other.
fn put_entry_names(
    source: &Source,
    out: &mut Vec<u8>,
    tops: &mut Vec<u32>,
    entries: &[u32],
    steps: &mut Vec<u32>,
) -> Result<(), NoMemory>
    requires ready { IsReady source.now }
    requires there { AreAmong (common_of source.now.common) (raw_of source.now) entries.now }
    ensures { (said : List (DwUnit ℕ)) (name : ℕ → CrossName) → KnowsSource source.now said name
        → OnOk result (Tells (flat_map name_label (map name (map (place_of source.now) entries.now)))
        (names_into (map name (map (place_of source.now) entries.now))) out.old.items out.new.items tops.old.items tops.new.items) }
{
    for entry in entries {
        put_entry_name(source, out, tops, *entry, steps)?;
    }
    Ok(())
}

// Appends so many of the entries that are named in order, from the next one on, behind their number.
fn put_next(
    source: &Source,
    out: &mut Vec<u8>,
    tops: &mut Vec<u32>,
    refs: &[u32],
    next: usize,
    count: usize,
    steps: &mut Vec<u32>,
) -> Result<(), NoMemory>
    requires ready { IsReady source.now }
    requires refs { AreAmong (common_of source.now.common) (raw_of source.now) refs.now }
    ensures { (said : List (DwUnit ℕ)) (name : ℕ → CrossName) (places others : List ℕ) → KnowsSource source.now said name
        → map (place_of source.now) (drop next refs.now) ≡ places ++ others → length places ≡ count
        → OnOk result (Tells (each_counted name_label (map name places)) (names_into (map name places)) out.old.items out.new.items
        tops.old.items tops.new.items) }
{
    put_number(out, count as u128)?;
    put_entry_names(source, out, tops, part(refs, next, count), steps)?;
    Ok(())
}

// Appends the entry that an operand names.
fn put_operand_name(
    source: &Source,
    out: &mut Vec<u8>,
    tops: &mut Vec<u32>,
    here: &Here,
    operand: &Operand,
    steps: &mut Vec<u32>,
) -> Result<(), NoMemory>
    requires ready { IsReady source.now }
    requires here { here.now.end ≤ entries_in (raw_of source.now) }
    ensures { (said : List (DwUnit ℕ)) (name : ℕ → CrossName) (u : RawUnit) → KnowsSource source.now said name
        → IsHere (raw_of source.now) u here.now → is_named (scope_at source.now u) operand.now ≡ true
        → OnOk result (Tells (name_label (name (target_of (scope_at source.now u) operand.now)))
        (names_into (name (target_of (scope_at source.now u) operand.now) ∷ [])) out.old.items out.new.items
        tops.old.items tops.new.items) }
{
    match entry_of(source.own.units, source.own.sections, here, operand) {
        Some(entry) => {
            put_name(out, tops, &source.own, entry, steps)?;
            Ok(())
        }
        None => Ok(()),
    }
}

// Appends the entries that operands name.
fn put_operand_names(
    source: &Source,
    out: &mut Vec<u8>,
    tops: &mut Vec<u32>,
    here: &Here,
    operands: &[Operand],
    steps: &mut Vec<u32>,
) -> Result<(), NoMemory>
    requires ready { IsReady source.now }
    requires here { here.now.end ≤ entries_in (raw_of source.now) }
    ensures { (said : List (DwUnit ℕ)) (name : ℕ → CrossName) (u : RawUnit) → KnowsSource source.now said name
        → IsHere (raw_of source.now) u here.now → first_unnamed (is_named (scope_at source.now u)) operands.now ≡ None
        → OnOk result (Tells (flat_map name_label (map name (targets (scope_at source.now u) operands.now)))
        (names_into (map name (targets (scope_at source.now u) operands.now))) out.old.items out.new.items tops.old.items tops.new.items) }
{
    for operand in operands {
        put_operand_name(source, out, tops, here, operand, steps)?;
    }
    Ok(())
}

/// Appends the entries that a value names, behind their number.
pub(crate) fn put_refs(
    source: &Source,
    out: &mut Vec<u8>,
    tops: &mut Vec<u32>,
    here: &Here,
    operands: &[Operand],
    named: Named,
    refs: &[u32],
    next: usize,
    steps: &mut Vec<u32>,
) -> Result<(), NoMemory>
    requires ready { IsReady source.now }
    requires here { here.now.end ≤ entries_in (raw_of source.now) }
    requires refs { AreAmong (common_of source.now.common) (raw_of source.now) refs.now }
    ensures { (said : List (DwUnit ℕ)) (name : ℕ → CrossName) (u : RawUnit) (v : Value ℕ) (others : List ℕ)
        → KnowsSource source.now said name → IsHere (raw_of source.now) u here.now
        → NamesSo (scope_at source.now u) v operands.now named
        → map (place_of source.now) (drop next refs.now) ≡ value_refs v ++ others
        → OnOk result (Tells (each_counted name_label (map name v.refs)) (names_into (map name v.refs)) out.old.items out.new.items
        tops.old.items tops.new.items) }
{
    match named {
        Named::Next(count) => put_next(source, out, tops, refs, next, count, steps),
        Named::Kept => {
            put_number(out, operands.len() as u128)?;
            put_operand_names(source, out, tops, here, operands, steps)?;
            Ok(())
        }
    }
}
