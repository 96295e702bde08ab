//! Columns of which it is seen that they fit, so that what asks for that can be called.

ghost use Rattle.std.specs.Prelude.{ℕ, ◌<◌, IsTrue};
ghost use Rattle.dwz_model.specs.Lists.{Each};
ghost use Rattle.dwz_check_rows.specs.UnitRows.{AreColumns, IsInside};

use dwz_check_rows::{Columns, RowKind, UnitNodes};
use dwz_groups::Groups;

fn is_inside(unit: &UnitNodes, count: usize) -> bool
    ensures { IsTrue result → IsInside count unit.now }
{
    let kind = match unit.kind {
        RowKind::Compile { root, spaces_end } => {
            (root as usize) < count && spaces_end as usize <= count
        }
        RowKind::OfType { .. } => (unit.top as usize) < count,
        RowKind::Partial => true,
    };
    unit.tops_end as usize <= count && kind
}

fn are_inside(units: &[UnitNodes], count: usize) -> bool
    ensures { IsTrue result → Each (IsInside count) units.now }
{
    for unit in units {
        if !is_inside(unit, count) {
            return false;
        }
    }
    true
}

fn are_imported(imports: &Groups, count: usize) -> bool
    ensures { IsTrue result → Each (Each (λ y. y < count)) imports.now }
{
    for unit in 0..imports.len() {
        if !imports
            .get(unit)
            .iter()
            .all(|import| (*import as usize) < count)
        {
            return false;
        }
    }
    true
}

/// Whether each node has an item in each column of nodes, and each unit in each column of units, and what units have is there.
pub(crate) fn fit(columns: &Columns, count: usize) -> bool
    ensures { IsTrue result → AreColumns count columns.now }
{
    let units = columns.units.len();
    if columns.names.len() != count || columns.plain.len() != count {
        return false;
    }
    if units > 1000 || columns.old > units || columns.new > units - columns.old {
        return false;
    }
    if columns.paths.len() != units || columns.imports.len() != units {
        return false;
    }
    are_inside(columns.units.as_slice(), count) && are_imported(&columns.imports, units)
}
