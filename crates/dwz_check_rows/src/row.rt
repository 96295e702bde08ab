//! What is compared of a unit.

ghost use Rattle.std.specs.Prelude.{◌≡◌, ◌↔◌, ◌<◌, true, length, IfOk, IsTrue};
ghost use Rattle.dwz_check_rows.specs.Rows.{AreTopLists, IsRowOf, RowsEqual, is_whole};
ghost use Rattle.dwz_check_rows.specs.UnitRows.{AreColumns, unit_at};

use crate::columns::{Columns, RowKind};
use crate::key_lists::{KeyLists, joined};
use crate::keys::{merge_keys, sort_keys, space_keys};
use dwz_model::NoMemory;
use std::alloc::Global;

/// What is compared of a unit that isn't partial. Keys are in order, each once.
#[derive(Drop)]
pub(crate) enum Row {
    /// The class of the root, and the keys of spaces and of tops, those of the partial units that it imports among them.
    Compile {
        root: u32,
        spaces: Vec<u64>,
        tops: Vec<u64>,
    },
    /// The signature, the path to the type, and the class of the root.
    OfType {
        signature: u64,
        path: Vec<u32>,
        top: u32,
    },
}

impl Row {
    pub(crate) fn is_same(&self, other: &Row) -> bool
        ensures { IsTrue result ↔ RowsEqual self.now other.now }
    {
        match self {
            Row::Compile { root, spaces, tops } => match other {
                Row::Compile {
                    root: other_root,
                    spaces: other_spaces,
                    tops: other_tops,
                } => *root == *other_root
                    && spaces.as_slice() == other_spaces.as_slice()
                    && tops.as_slice() == other_tops.as_slice(),
                Row::OfType { .. } => false,
            },
            Row::OfType {
                signature,
                path,
                top,
            } => match other {
                Row::Compile { .. } => false,
                Row::OfType {
                    signature: other_signature,
                    path: other_path,
                    top: other_top,
                } => *signature == *other_signature
                    && path.as_slice() == other_path.as_slice()
                    && *top == *other_top,
            },
        }
    }
}

// The row of a compile unit with that root.
fn compile_row(
    alloc: Global,
    classes: &[u32],
    columns: &Columns,
    tops: &KeyLists,
    unit: usize,
    root: u32,
    spaces_end: u32,
) -> Result<Row, NoMemory>
    requires columns { AreColumns (length classes.now) columns.now }
    requires tops { AreTopLists classes.now columns.now tops.now }
    requires unit { unit < length columns.now.units }
    requires kind { (unit_at columns.now unit).kind ≡ RowKind.Compile root spaces_end }
    ensures { IfOk result (IsRowOf classes.now columns.now unit) }
{
    let names = columns.names.as_slice();
    let start = root as usize + 1;
    let spaces = sort_keys(space_keys(alloc, classes, names, start, spaces_end as usize)?);
    let tops = merge_keys(joined(alloc, tops, unit, columns.imports.get(unit))?)?;
    let root = classes[root as usize];
    Ok(Row::Compile { root, spaces, tops })
}

/// The row of the unit with that number, where the keys of all units are sorted.
pub(crate) fn row_of(
    alloc: Global,
    classes: &[u32],
    columns: &Columns,
    tops: &KeyLists,
    unit: usize,
) -> Result<Row, NoMemory>
    requires columns { AreColumns (length classes.now) columns.now }
    requires tops { AreTopLists classes.now columns.now tops.now }
    requires unit { unit < length columns.now.units }
    requires whole { is_whole (unit_at columns.now unit).kind ≡ true }
    ensures { IfOk result (IsRowOf classes.now columns.now unit) }
{
    let nodes = columns.units.as_slice()[unit];
    match nodes.kind {
        RowKind::Compile { root, spaces_end } => {
            compile_row(alloc, classes, columns, tops, unit, root, spaces_end)
        }
        RowKind::OfType { signature } => {
            let path = columns.paths.get(unit).to_vec(alloc)?;
            let top = classes[nodes.top as usize];
            Ok(Row::OfType {
                signature,
                path,
                top,
            })
        }
        RowKind::Partial => unreachable!(),
    }
}
