//! Operands with their new numbers.

ghost use Rattle.std.specs.Prelude.{◌≡◌, ◌++◌, List, map};
ghost use Rattle.dwz_def_reading.specs.declared.exprs.Operand.{Operand};
ghost use Rattle.dwz_expand_layout.specs.Laid.{layout_view};
ghost use Rattle.dwz_expand.specs.Told.{start_of, told};
ghost use Rattle.dwz_expand_sections.specs.Narrow.{FirstPlace};

use dwz_def_reading::Operand;
use dwz_expand_layout::{LaidUnit, NewLayout, NewOperand};
use dwz_expand_sections::note_operand;
use dwz_model::{Base, at_or};

/// Where a new unit begins.
pub(crate) fn start_at(layout: &NewLayout, unit: usize) -> u64
    ensures { result ≡ start_of (layout_view layout.now) unit }
{
    let none = LaidUnit {
        at: 0,
        end: 0,
        table: 0,
    };
    at_or(layout.units.as_slice(), unit, none).at
}

// An operand of a unit that begins there, with its new number.
fn renumbered(layout: &NewLayout, start: u64, operand: &NewOperand) -> Operand
    ensures { result ≡ told (layout_view layout.now) start operand.now }
{
    let place = at_or(layout.places.as_slice(), operand.copy as usize, 0);
    let number = match operand.operand.base {
        Base::Unit => place.saturating_sub(start),
        Base::Info => place,
    };
    Operand {
        at: operand.operand.at,
        width: operand.operand.width,
        uleb: operand.operand.uleb,
        base: operand.operand.base,
        number,
    }
}

/// The place of the first operand that is too narrow, with those of one entry more.
pub(crate) fn note_all(
    before: Option<u64>,
    layout: &NewLayout,
    start: u64,
    operands: &[NewOperand],
) -> Option<u64>
    ensures { (noted : List Operand) → FirstPlace noted before
        → FirstPlace (noted ++ map (told (layout_view layout.now) start) operands.now) result }
{
    let mut first = before;
    for operand in operands {
        first = note_operand(first, &renumbered(layout, start, operand));
    }
    first
}
