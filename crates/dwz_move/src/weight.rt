//! What entries weigh, about how many bytes they take, by their values.

ghost use Rattle.std.specs.Prelude.{◌≡◌, ℕ, ◌+◌, ◌<◌, List, Ok, Some, nat_lt, slice_get, if◌then◌else◌};
ghost use Rattle.dwz_def_tops.specs.Spots.{EntryName};
ghost use Rattle.dwz_def_reading.specs.Units.{entries_in};
ghost use Rattle.dwz_def_reading.specs.Values.{HasSpelling};
ghost use Rattle.dwz_graph.specs.Rows.{IsEntryMeant};
ghost use Rattle.dwz_forms.specs.RawValues.{raw_view};
ghost use Rattle.dwz_def_reading.specs.Documents.{Node, Value, node_map};
ghost use Rattle.dwz_def_reading.specs.Meanings.{MeaningContext, number_of};
ghost use Rattle.dwz_def_reading.specs.Meant.{meaning};
ghost use Rattle.dwz_def_plan.specs.Groups.{value_weight};
ghost use Rattle.dwz_graph.specs.Resolved.{stored};
ghost use Rattle.dwz_move.specs.Weights;
ghost use Rattle.dwz_move.specs.Weights.{capped, node_weight};
ghost use Rattle.dwz_unit.specs.Rows.{EntryRow, rows_of, units_of};

use crate::values::bytes_of;
use dwz_codes::{Class, DW_AT_SIBLING, DW_FORM_STRING, class_of, names_file};
use dwz_forms::{Raw, size_of_value};
use dwz_model::Pair;
use dwz_unit::{Units, Values, known_value};

// A group of tops that weigh so much together gains, whatever else they weigh.
pub(crate) const HEAVY: u64 = 64;

// One weight and another, counted up to 64.
#[inline(always)]
pub(crate) fn add_weights(weight: u64, more: u64) -> u64
    ensures { result ≡ capped (weight + more) }
{
    weight.saturating_add(more).min(HEAVY)
}

// The weight of a value of that class, where it doesn't depend on what is stored: 4 of a text that stands elsewhere or a reference, 1 of
// a file.
#[inline(always)]
pub(crate) fn set_weight(class: Class, file: bool) -> Option<u64>
    ensures { result ≡ Weights.set_weight class file }
{
    match class {
        Class::Text => Some(4),
        Class::TextInStr => Some(4),
        Class::TextInLineStr => Some(4),
        Class::TextBySlot => Some(4),
        Class::CommonText => Some(4),
        Class::UnitEntry => Some(4),
        Class::InfoEntry => Some(4),
        Class::CommonEntry => Some(4),
        Class::Constant => {
            if file {
                return Some(1);
            }
            None
        }
        _ => None,
    }
}

/// About how many bytes a value takes: a text that stands there its bytes and one more, any other text or a reference 4, a file 1, and
/// all else what it takes in its form.
#[inline(always)]
pub(crate) fn weight_of_value(pair: &Pair, raw: &Raw) -> u64
    requires { HasSpelling pair.now.form (raw_view raw.now) }
    ensures { (s : MeaningContext ℕ) (at end : ℕ) (v : Value ℕ) → meaning s (stored at end pair.now raw.now) ≡ Ok v
        → result ≡ value_weight pair.now.form (number_of (raw_view raw.now)) v.plain }
{
    if pair.form == DW_FORM_STRING {
        return bytes_of(raw).len() as u64 + 1;
    }
    match set_weight(class_of(pair.form), names_file(pair.name)) {
        Some(weight) => weight,
        None => size_of_value(pair.form as u16, raw),
    }
}

// What an entry weighs without its values, with children or without.
#[inline(always)]
fn own_weight(parent: bool) -> u64
    ensures { result ≡ (if parent then 2 else 1) }
{
    if parent { 2 } else { 1 }
}

/// What an entry weighs without its values.
#[inline(always)]
pub(crate) fn weight_alone(units: &Units, i: u32) -> u64
    requires { i < entries_in (units_of units.now) }
    ensures { (row : EntryRow) → slice_get (rows_of (units_of units.now)) i ≡ Some row → result ≡ (if nat_lt (i + 1) row.end then 2 else 1) }
{
    let end = units.entry(i).end;
    own_weight(u64::from(end) > u64::from(i) + 1)
}

/// What an entry weighs itself, counted up to 64: 1, one more if it has children, and what its values weigh.
pub(crate) fn weight_of_entry(units: &Units, i: u32) -> u64
    requires { i < entries_in (units_of units.now) }
    ensures { (s : MeaningContext ℕ) (numbers : List ℕ) (row : EntryRow) (d : Node ℕ) (name : ℕ → EntryName)
        → IsEntryMeant (units_of units.now) s i numbers row d → result ≡ capped (node_weight (nat_lt (i + 1) row.end) (node_map name d)) }
{
    let mut weight = weight_alone(units, i);
    let Values { pairs, mut cursor } = units.values(i);
    for pair in pairs {
        let raw = known_value(&mut cursor, pair);
        if pair.name != DW_AT_SIBLING {
            weight = add_weights(weight, weight_of_value(pair, &raw));
        }
    }
    weight
}
