//! What is looked up for each unit: made once, read by whoever goes through units.

ghost use Rattle.std.specs.Prelude.{◌≡◌, length, IfOk};
ghost use Rattle.dwz_takes.specs.Takes.{AreRows};

use crate::lists::turn;
use crate::rows::Rows;
use crate::watch::{holders, watchers};
use dwz_groups::Groups;
use dwz_model::NoMemory;
use std::alloc::Global;

/// What is looked up for each unit.
#[derive(Drop)]
pub(crate) struct Tables {
    /// For each unit the classes of its tops that may move, each once.
    pub classes: Groups,
    /// For each class the partial units that stand under it: those of which it is the rarest.
    pub watchers: Groups,
    /// For each partial unit those that refer to it.
    pub sources: Groups,
}

impl Tables {
    ghost use Rattle.dwz_takes.specs.Tables.{AreTables};

    /// The tables of rows.
    pub fn make(alloc: Global, rows: &Rows) -> Result<Tables, NoMemory>
        requires { AreRows rows.now }
        ensures { IfOk result (λ tables. AreTables rows.now tables) }
    {
        let holders = holders(alloc, rows)?;
        let classes = turn(alloc, rows.unit_tops.len(), &holders)?;
        let watchers = watchers(alloc, rows, &holders)?;
        let sources = turn(alloc, rows.part_tops.len(), &rows.part_targets)?;
        Ok(Tables {
            classes,
            watchers,
            sources,
        })
    }
}
