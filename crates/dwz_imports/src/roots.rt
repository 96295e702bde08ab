//! The unit whose root begins at a place.

ghost use Rattle.std.specs.Prelude.{◌≡◌, ◌↔◌, ℕ, ◌+◌, ◌<◌, [], ◌∷◌, None, Some, IfSome, get_or, length};
ghost use Rattle.dwz_def_reading.specs.Units.{RawUnit};
ghost use Rattle.dwz_imports.specs.Stored.{IsPartNumber, roots};
ghost use Rattle.dwz_unit.specs.Rows.{units_of};

use dwz_codes::DW_UT_PARTIAL;
use dwz_unit::Units;

// Where the root of the unit with a number begins.
fn root_at(units: &Units, n: u32) -> u32
    requires { n < length (units_of units.now) }
    ensures { result ≡ get_or (roots (units_of units.now)) n 0 }
{
    units.entry(units.unit(n).first).at
}

// The number of the unit whose root begins at a place.
fn unit_with_root(units: &Units, place: u128) -> Option<u32>
    ensures found { IfSome result (λ n. (n < length (units_of units.now)) × (get_or (roots (units_of units.now)) n 0 ≡ place)) }
    ensures none { result ≡ None → (n : ℕ) → n < length (units_of units.now) → get_or (roots (units_of units.now)) n 0 ≡ place → ⊥ }
{
    let mut low = 0;
    let mut high = units.len();
    while low < high {
        let middle = low + (high - low) / 2;
        let at = root_at(units, middle) as u128;
        if at == place {
            return Some(middle);
        }
        if at < place {
            low = middle + 1;
        } else {
            high = middle;
        }
    }
    None
}

/// The number of the partial unit whose root begins at a place.
pub(crate) fn part_at(units: &Units, place: u128) -> Option<u32>
    ensures { (n : ℕ) → (result ≡ Some n) ↔ IsPartNumber (units_of units.now) (place ∷ []) n }
{
    match unit_with_root(units, place) {
        None => None,
        Some(n) => {
            if units.unit(n).kind == DW_UT_PARTIAL {
                Some(n)
            } else {
                None
            }
        }
    }
}
