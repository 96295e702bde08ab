//! The entries of a file and of its common one.

ghost use Rattle.std.specs.Prelude.{◌≡◌, ℕ, ◌<◌, ◌≤◌, List, OnOk, Some, length, slice_get};
ghost use Rattle.dwz_model.specs.Lists.{Each};
ghost use Rattle.dwz_expand_layout.specs.Entries.{CanStore};
ghost use Rattle.dwz_def_cross.specs.Tops.{WithCommon};
ghost use Rattle.dwz_def_reading.specs.Units.{RawUnit, entries_in};
ghost use Rattle.dwz_expand_sources.specs.Index.{ListedEntry};
ghost use Rattle.dwz_def_expand.specs.Refusals.{Where};
ghost use Rattle.dwz_def_expand.specs.Source.{Copy};
ghost use Rattle.dwz_encode.specs.Shown.{Keys};
ghost use Rattle.dwz_expand_sources.specs.Sources.{all_entries};
ghost use Rattle.dwz_layout.specs.Ways.{holder_view};
ghost use Rattle.dwz_unit.specs.Rows.{units_of};
ghost use Rattle.dwz_expand_passes.specs.Files.{AnswersEntry, IsFileReady, IsKnownReady, IsSource, Knows, SpeaksEntry, entry_count, holder_for, raw_in};

use crate::attributes::put_values;
use crate::files::{Known, SourceEntry, SourceFile};
use dwz_codes::DW_UT_PARTIAL;
use dwz_expand_layout::{NewAttr, NewOperand};
use dwz_expr::Operand;
use dwz_layout::UnitRole;
use dwz_model::ReadErr;
use dwz_unit::Units;

// What holds the unit with a number.
fn role_of(units: &Units, unit: u32) -> UnitRole
    requires { unit < length (units_of units.now) }
    ensures { (u : RawUnit) → slice_get (units_of units.now) unit ≡ Some u → holder_view result ≡ holder_for u.kind }
{
    if units.unit(unit).kind == DW_UT_PARTIAL {
        UnitRole::NewUnit
    } else {
        UnitRole::OldUnit
    }
}

// The entry with a number in a file, whose first has that number among all.
fn entry_of<'s, 'a>(
    known: &Known<'s, 'a>,
    file: &SourceFile<'s, 'a>,
    first: u32,
    is_common: bool,
    i: u32,
) -> SourceEntry<'s, 'a>
    requires ready { IsFileReady file.now }
    requires there { i < entries_in (raw_in file.now) }
    ensures { IsSource known.now file.now first is_common i result }
{
    let unit = file.units.entry(i).unit;
    let role = if is_common {
        UnitRole::CommonUnit
    } else {
        role_of(file.units, unit)
    };
    SourceEntry {
        known: *known,
        file: *file,
        first,
        role,
        here: &file.heres[unit as usize],
        line: file.lines[unit as usize],
    }
}

/// The copies of the attributes of an entry, and the operands of its expressions, in the new unit at hand; they take the place of what
/// stands in the rows. Entries of the common file have the numbers behind the file's own.
///
/// Refused at the first value that can't be copied, with a fault in the file of the entry: as `NotImported` at the value, or at the operand
/// in its expression or location list, that names an entry which no new unit has; and as `NoRow` at the number of a file that has no row
/// in the line table of the new unit. `read` is room.
pub(crate) fn put_attrs<'a>(
    known: &Known<'_, 'a>,
    entry: u32,
    attrs: &mut Vec<NewAttr<'a>>,
    operands: &mut Vec<NewOperand>,
    read: &mut Vec<Operand>,
) -> Result<(), ReadErr>
    requires ready { IsKnownReady known.now }
    requires there { entry < entry_count known.now }
    ensures copies { (w : WithCommon ℕ) (keys : Keys (Copy ℕ)) (stands : Where ℕ) (d : ListedEntry ℕ) → Knows known.now w keys stands
        → slice_get (all_entries w) entry ≡ Some d → AnswersEntry known.now w keys stands d.0 attrs.new.items operands.new.items result }
    ensures speaks { (w : WithCommon ℕ) (keys : Keys (Copy ℕ)) (stands : Where ℕ) (d : ListedEntry ℕ) → Knows known.now w keys stands
        → slice_get (all_entries w) entry ≡ Some d
        → OnOk result (SpeaksEntry known.now.own known.now.common known.now.unit w keys entry operands.new.items) }
    ensures stores { OnOk result (Each CanStore attrs.new.items) }
{
    let own = known.own.units.entries();
    if entry < own {
        let x = entry_of(known, &known.own, 0, false, entry);
        return put_values(&x, entry, attrs, operands, read);
    }
    match &known.common {
        Some(common) => {
            let x = entry_of(known, common, own, true, entry - own);
            put_values(&x, entry - own, attrs, operands, read)
        }
        None => unreachable!(),
    }
}
