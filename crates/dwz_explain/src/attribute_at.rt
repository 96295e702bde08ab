//! An attribute of an entry by its number.

ghost use Rattle.std.specs.Prelude.{◌≡◌, ◌<◌, ◌==◌, ℕ, not, slice_get};
ghost use Rattle.std.specs.List.{filter};
ghost use Rattle.std.specs.Option.{option_map};
ghost use Rattle.dwz_def_explain.specs.What.{Subtree};
ghost use Rattle.dwz_def_reading.specs.Meanings.{MeaningContext};
ghost use Rattle.dwz_def_tops.specs.Spots.{EntryName};
ghost use Rattle.dwz_explain.specs.Shown.{HasSubtree, MeansSubtree};
ghost use Rattle.dwz_unit.specs.Rows.{units_of};

use dwz_codes::DW_AT_SIBLING;
use dwz_model::Pair;
use dwz_unit::{Units, Values};

// The name of the pair with a number, where `DW_AT_sibling` isn't counted.
fn name_at(pairs: &[Pair], index: u32) -> Option<u16>
    ensures { result ≡ option_map (λ pair. pair.name) (slice_get (filter (λ pair. not (pair.name == 0x01)) pairs.now) index) }
{
    let mut left = index;
    for pair in pairs {
        if pair.name != DW_AT_SIBLING {
            if left == 0 {
                return Some(pair.name);
            }
            left -= 1;
        }
    }
    None
}

/// The name of the attribute with a number, from 0, of an entry: `DW_AT_sibling` isn't counted (DWARF 5, 7.5.4). None where the entry has
/// no such attribute.
pub(crate) fn attribute_at(units: &Units, entry: u32, index: u32) -> Option<u16>
    requires { HasSubtree (units_of units.now) entry }
    ensures { (s : MeaningContext ℕ) (name : ℕ → EntryName) (x : Subtree) → MeansSubtree s name (units_of units.now) entry x
        → result ≡ option_map (λ a. a.name) (slice_get x.node.attrs index) }
{
    let Values {
        pairs,
        cursor: _cursor,
    } = units.values(entry);
    name_at(pairs, index)
}
