//! The entry that begins at a place.

ghost use Rattle.std.specs.Prelude.{◌≡◌, ℕ, ◌<◌, ◌≤◌, true, None, IfSome};
ghost use Rattle.dwz_def_reading.specs.Units.{entries_in};
ghost use Rattle.dwz_graph_resolve.specs.Resolved.{place_at};
ghost use Rattle.dwz_unit.specs.Rows.{units_of};

use crate::hints::Hints;
use dwz_unit::Units;

/// The number of the entry that begins at a place, among those from `first` to before `end`.
#[inline(always)]
pub(crate) fn find(units: &Units, first: u32, end: u32, place: u128) -> Option<u32>
    requires { end ≤ entries_in (units_of units.now) }
    ensures found { IfSome result (λ i. (first ≤ i) × (i < end) × (place_at (units_of units.now) i ≡ place)) }
    ensures none { result ≡ None → (i : ℕ) → first ≤ i → i < end → place_at (units_of units.now) i ≡ place → ⊥ }
{
    let mut low = first;
    let mut high = end;
    while low < high {
        let middle = low + (high - low) / 2;
        let at = units.entry(middle).at as u128;
        if at == place {
            return Some(middle);
        }
        if at < place {
            low = middle + 1;
        } else {
            high = middle;
        }
    }
    None
}

// Whether the entry with a number is one of those from `first` to before `end`, and begins at a place.
#[inline(always)]
fn begins_at(units: &Units, first: u32, end: u32, place: u128, number: u32) -> bool
    requires { end ≤ entries_in (units_of units.now) }
    ensures { result ≡ true → (first ≤ number) × (number < end) × (place_at (units_of units.now) number ≡ place) }
{
    first <= number && number < end && units.entry(number).at as u128 == place
}

/// The same as `find`, where few entries are asked for again and again: most references name types that others name too.
#[inline(always)]
pub(crate) fn find_again(
    units: &Units,
    first: u32,
    end: u32,
    place: u128,
    hints: &mut Hints,
) -> Option<u32>
    requires { end ≤ entries_in (units_of units.now) }
    ensures found { IfSome result (λ i. (first ≤ i) × (i < end) × (place_at (units_of units.now) i ≡ place)) }
    ensures none { result ≡ None → (i : ℕ) → first ≤ i → i < end → place_at (units_of units.now) i ≡ place → ⊥ }
{
    let hint = hints.get(place);
    if begins_at(units, first, end, place, hint) {
        return Some(hint);
    }
    let number = find(units, first, end, place)?;
    hints.keep(place, number);
    Some(number)
}

/// The same, where it is kept which it is.
#[inline(always)]
pub(crate) fn find_hinted(
    units: &Units,
    first: u32,
    end: u32,
    place: u128,
    hints: &Hints,
) -> Option<u32>
    requires { end ≤ entries_in (units_of units.now) }
    ensures { IfSome result (λ i. (first ≤ i) × (i < end) × (place_at (units_of units.now) i ≡ place)) }
{
    let hint = hints.get(place);
    if begins_at(units, first, end, place, hint) {
        return Some(hint);
    }
    None
}
