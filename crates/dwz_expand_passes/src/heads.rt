//! The tags and depths of the entries of a file and of its common one.

ghost use Rattle.std.specs.Prelude.{◌≡◌, ℕ, ◌<◌, Some, slice_get};
ghost use Rattle.dwz_def_cross.specs.Tops.{WithCommon};
ghost use Rattle.dwz_def_expand.specs.Refusals.{Where};
ghost use Rattle.dwz_def_expand.specs.Source.{Copy};
ghost use Rattle.dwz_def_reading.specs.Units.{entries_in};
ghost use Rattle.dwz_expand_layout.specs.Lines.{Line};
ghost use Rattle.dwz_expand_layout.specs.Shown.{Keys};
ghost use Rattle.dwz_expand_passes.specs.Files.{IsKnownReady, Knows, entry_count};
ghost use Rattle.dwz_expand_passes.specs.Heads.{IsHead, IsHeadOf};
ghost use Rattle.dwz_expand_passes.specs.Lined.{all_lines};
ghost use Rattle.dwz_unit.specs.Rows.{EntryRow, rows_of, units_of};

use crate::files::Known;
use dwz_unit::Units;

/// The tag of an entry, and how deep it stands in its unit: a root has depth 1.
#[derive(Clone, Copy)]
pub(crate) struct Head {
    pub(crate) tag: u16,
    pub(crate) depth: u32,
}

// That of the entry of a file with a number.
fn head_in(units: &Units, i: u32) -> Head
    requires { i < entries_in (units_of units.now) }
    ensures tag { 0 < result.tag }
    ensures is { (row : EntryRow) → slice_get (rows_of (units_of units.now)) i ≡ Some row → IsHead row result }
{
    let entry = units.entry(i);
    Head {
        tag: entry.tag,
        depth: entry.depth,
    }
}

/// That of an entry. Those of the common file have the numbers behind the file's own.
pub(crate) fn head_of(known: &Known, entry: u32) -> Head
    requires there { entry < entry_count known.now }
    requires ready { IsKnownReady known.now }
    ensures tag { 0 < result.tag }
    ensures is { (w : WithCommon ℕ) (keys : Keys (Copy ℕ)) (stands : Where ℕ) → Knows known.now w keys stands
        → (l : Line ℕ) → slice_get (all_lines w) entry ≡ Some l → IsHeadOf l result }
{
    let own = known.own.units.entries();
    if entry < own {
        return head_in(known.own.units, entry);
    }
    match &known.common {
        Some(common) => head_in(common.units, entry - own),
        None => unreachable!(),
    }
}
