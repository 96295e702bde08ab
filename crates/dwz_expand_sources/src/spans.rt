//! Where units begin and end among all entries.

ghost use Rattle.std.specs.Prelude.{◌≡◌, ◌+◌, ◌<◌, ◌≤◌, ◌^◌, ◌++◌, IfOk, OnOk, map, Option, Some};
ghost use Rattle.std.specs.Option.{option_map};
ghost use Rattle.dwz_def_reading.specs.Units.{entries_in};
ghost use Rattle.dwz_imports.specs.Said.{raw_beside};
ghost use Rattle.dwz_expand_sources.specs.Building.{spans_from, stored_shape};
ghost use Rattle.dwz_unit.specs.Rows.{units_of};

use dwz_model::NoMemory;
use dwz_unit::Units;
use std::alloc::Global;

/// The entries of a unit.
#[derive(Clone, Copy)]
pub(crate) struct UnitSpan {
    /// The number of its root.
    pub root: u32,
    /// The number behind that of its last entry.
    pub end: u32,
}

// Adds those of the units of a file, which stand behind so many entries.
fn put_spans(units: &Units, before: u32, spans: &mut Vec<UnitSpan>) -> Result<(), NoMemory>
    requires { before + entries_in (units_of units.now) < 2 ^ 32 }
    ensures { OnOk result (spans.new.items ≡ spans.old.items ++ spans_from before (map stored_shape (units_of units.now))) }
{
    for n in 0..units.len() {
        let root = units.unit(n).first;
        let end = units.entry(root).end;
        spans.push(UnitSpan {
            root: before + root,
            end: before + end,
        })?;
    }
    Ok(())
}

/// Those of the units of a file, and behind them of the common file, if there is one.
pub(crate) fn unit_spans(
    alloc: Global,
    own: &Units,
    common: Option<&Units>,
) -> Result<Vec<UnitSpan>, NoMemory>
    requires { entries_in (units_of own.now) + entries_in (raw_beside (option_map (λ u. u.now) common)) < 2 ^ 32 }
    ensures { IfOk result (λ spans. spans.items ≡ spans_from 0 (map stored_shape (units_of own.now ++ raw_beside (option_map (λ u. u.now) common.entry)))) }
{
    let mut spans = Vec::new(alloc);
    put_spans(own, 0, &mut spans)?;
    match common {
        None => Ok(spans),
        Some(units) => {
            put_spans(units, own.entries(), &mut spans)?;
            Ok(spans)
        }
    }
}
