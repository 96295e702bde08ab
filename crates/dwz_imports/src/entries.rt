//! The partial units that an entry imports.

ghost use Rattle.std.specs.Prelude.{◌≡◌, ◌↔◌, ◌⊎◌, ℕ, ◌+◌, ◌<◌, ◌^◌, ◌++◌, [], ◌∷◌, List, None, Some, OnOk, length, slice_get};
ghost use Rattle.std.specs.Option.{option_map};
ghost use Rattle.dwz_def_reading.specs.Classes;
ghost use Rattle.dwz_def_reading.specs.Lists.{In};
ghost use Rattle.dwz_def_reading.specs.Meanings;
ghost use Rattle.dwz_def_reading.specs.Units.{entries_in};
ghost use Rattle.dwz_def_reading.specs.Spelling.{reach};
ghost use Rattle.dwz_forms.specs.RawValues.{raw_view};
ghost use Rattle.dwz_graph.specs.Resolved.{stored};
ghost use Rattle.dwz_imports.specs.Said.{raw_beside};
ghost use Rattle.dwz_imports.specs.Stored.{IsPartOf, NamesPart, common_named, common_place, named_parts, own_named, own_place};
ghost use Rattle.dwz_unit.specs.Rows.{EntryRow, rows_of, units_of};

use crate::roots::part_at;
use dwz_codes::{Class, DW_AT_IMPORT, class_of};
use dwz_forms::Raw;
use dwz_graph::offset_of;
use dwz_model::{NoMemory, Pair};
use dwz_unit::{Units, Values, known_value};

// The number of a partial unit of other units whose root begins at a place: behind those of the file's own units.
fn part_behind(own: &Units, common: &Units, place: u128) -> Option<u32>
    requires { length (units_of own.now) + length (units_of common.now) < 2 ^ 32 }
    ensures { (n : ℕ) → (result ≡ Some n) ↔ IsPartOf (units_of own.now) (units_of common.now) [] (place ∷ []) n }
{
    match part_at(common, place) {
        None => None,
        Some(n) => Some(own.len() + n),
    }
}

// The same of the common file, if there is one.
fn common_part(own: &Units, common: Option<&Units>, place: u128) -> Option<u32>
    requires { length (units_of own.now) + length (raw_beside (option_map (λ u. u.now) common)) < 2 ^ 32 }
    ensures { (n : ℕ) → (result ≡ Some n) ↔ IsPartOf (units_of own.now) (raw_beside (option_map (λ u. u.now) common.entry)) []
        (place ∷ []) n }
{
    match common {
        None => None,
        Some(units) => part_behind(own, units, place),
    }
}

// The number of the partial unit that a value of that class names, in a unit that begins at a place.
fn named_part(own: &Units, common: Option<&Units>, at: u32, class: Class, raw: &Raw) -> Option<u32>
    requires { length (units_of own.now) + length (raw_beside (option_map (λ u. u.now) common)) < 2 ^ 32 }
    ensures { (n : ℕ) → (result ≡ Some n) ↔ IsPartOf (units_of own.now) (raw_beside (option_map (λ u. u.now) common.entry))
        (own_place class at (reach (Meanings.number_of (raw_view raw.now)))) (common_place class (reach (Meanings.number_of
        (raw_view raw.now)))) n }
{
    let offset = offset_of(raw);
    match class {
        Class::UnitEntry => part_at(own, at as u128 + offset),
        Class::InfoEntry => part_at(own, offset),
        Class::CommonEntry => common_part(own, common, offset),
        _ => None,
    }
}

// Adds a number, if it is there.
fn put(parts: &mut Vec<u32>, part: Option<u32>) -> Result<(), NoMemory>
    ensures { OnOk result ((n : ℕ) → In n parts.new.items ↔ (In n parts.old.items ⊎ (part ≡ Some n))) }
{
    if let Some(part) = part {
        parts.push(part)?;
    }
    Ok(())
}

// Adds the number of the partial unit that an attribute names, if it is DW_AT_import, in a unit that begins at a place.
fn put_attr(
    own: &Units,
    common: Option<&Units>,
    at: u32,
    pair: &Pair,
    raw: &Raw,
    parts: &mut Vec<u32>,
) -> Result<(), NoMemory>
    requires { length (units_of own.now) + length (raw_beside (option_map (λ u. u.now) common)) < 2 ^ 32 }
    ensures { OnOk result ((n : ℕ) → In n parts.new.items ↔ (In n parts.old.items ⊎ IsPartOf (units_of own.now) (raw_beside (option_map
        (λ u. u.now) common.entry))
        (own_named at (stored 0 0 pair.now raw.now)) (common_named (stored 0 0 pair.now raw.now)) n)) }
{
    if pair.name != DW_AT_IMPORT {
        return Ok(());
    }
    put(parts, named_part(own, common, at, class_of(pair.form), raw))
}

// Adds the numbers of the partial units that attributes of an entry name, in order of the attributes. Its unit begins at a place.
fn put_named(
    own: &Units,
    common: Option<&Units>,
    at: u32,
    i: u32,
    parts: &mut Vec<u32>,
) -> Result<(), NoMemory>
    requires entry { i < entries_in (units_of own.now) }
    requires room { length (units_of own.now) + length (raw_beside (option_map (λ u. u.now) common)) < 2 ^ 32 }
    ensures { (row : EntryRow) → slice_get (rows_of (units_of own.now)) i ≡ Some row → OnOk result ((n : ℕ) → In n parts.new.items
        ↔ (In n parts.old.items ⊎ NamesPart (units_of own.now) (raw_beside (option_map (λ u. u.now) common.entry)) at row.entry.attrs n)) }
{
    let Values { pairs, mut cursor } = own.values(i);
    for pair in pairs {
        let raw = known_value(&mut cursor, pair);
        put_attr(own, common, at, pair, &raw, parts)?;
    }
    Ok(())
}

/// The numbers of the partial units that attributes of an entry name, in order, take the place of what stands in the row. Its unit begins
/// at a place.
pub(crate) fn find_parts(
    own: &Units,
    common: Option<&Units>,
    at: u32,
    i: u32,
    parts: &mut Vec<u32>,
) -> Result<(), NoMemory>
    requires entry { i < entries_in (units_of own.now) }
    requires room { length (units_of own.now) + length (raw_beside (option_map (λ u. u.now) common)) < 2 ^ 32 }
    ensures { (row : EntryRow) → slice_get (rows_of (units_of own.now)) i ≡ Some row
        → OnOk result (parts.new.items ≡ named_parts (units_of own.now) (raw_beside (option_map
        (λ u. u.now) common.entry)) at row.entry.attrs) }
{
    parts.clear();
    put_named(own, common, at, i, parts)?;
    parts.sort_unstable();
    parts.dedup();
    Ok(())
}
