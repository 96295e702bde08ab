//! The columns of units.

ghost use Rattle.std.specs.Prelude.{◌≡◌, ℕ, ◌+◌, ◌<◌, ◌^◌, ◌++◌, [], All, List, OnOk, length, map};
ghost use Rattle.dwz_check_columns.specs.Drawn.{imports_among};
ghost use Rattle.dwz_check_columns.specs.Paths.{PutsPaths};
ghost use Rattle.dwz_check_index.specs.declared.index.CrossStarts.{CrossStarts};
ghost use Rattle.dwz_check_sides.specs.Says.{IsSide, SaysSome};
ghost use Rattle.dwz_check_sides.specs.Units.{nodes_of};
ghost use Rattle.dwz_def_check.specs.CrossLists.{numbered_units};
ghost use Rattle.dwz_def_reading.specs.Documents.{DwUnit};
ghost use Rattle.dwz_imports.specs.Stored.{edges_of};
ghost use Rattle.dwz_unit.specs.Rows.{units_of};

use crate::imports::put_imports;
use crate::paths::put_paths;
use dwz_check_rows::UnitNodes;
use dwz_check_sides::{Side, put_units};
use dwz_groups::{Edge, Groups};
use dwz_model::NoMemory;
use std::alloc::Global;

/// What is known of the units of the files so far.
#[derive(Drop)]
pub(crate) struct UnitDraft {
    /// The nodes of each unit.
    pub(crate) units: Vec<UnitNodes>,
    /// The steps from the root of each type unit to its type, each under the unit.
    pub(crate) paths: Vec<Edge>,
    /// The partial units that units import, each under the unit.
    pub(crate) imports: Vec<Edge>,
}

impl UnitDraft {
    /// Nothing yet. Takes no memory.
    pub(crate) fn new(alloc: Global) -> UnitDraft
        ensures units { result.units.items ≡ [] }
        ensures paths { result.paths.items ≡ [] }
        ensures imports { result.imports.items ≡ [] }
    {
        UnitDraft {
            units: Vec::new(alloc),
            paths: Vec::new(alloc),
            imports: Vec::new(alloc),
        }
    }

    /// Adds the units of a file, which import these. Its first unit has that number, as many roots and spaces come before its own, and
    /// the first common unit has that number.
    pub(crate) fn put_all(
        &mut self,
        alloc: Global,
        side: &Side,
        lists: &Groups,
        first: u32,
        lone: u32,
        common: u32,
    ) -> Result<(), NoMemory>
        requires said { SaysSome side.now }
        requires none { side.now.index.now.starts.lone ≡ 0 }
        requires lone { lone + length side.now.index.now.lone < 2 ^ 32 }
        requires tops { side.now.index.now.starts.top + length side.now.index.now.tops < 2 ^ 32 }
        requires units { first + length (units_of side.now.file.now.units) < 2 ^ 32 }
        requires keys { first + length lists.now < 2 ^ 32 }
        requires own_parts { All (All (λ n. first + n < 2 ^ 32)) lists.now }
        requires common_parts { All (All (λ n. common + n < 2 ^ 32)) lists.now }
        ensures units { (said : List (DwUnit ℕ)) (starts : CrossStarts) → IsSide side.now said starts
            → OnOk result (self.new.units.items ≡ self.old.units.items ++ map (nodes_of lone) (numbered_units starts.top starts.lone said)) }
        ensures paths { (said : List (DwUnit ℕ)) (starts : CrossStarts) → IsSide side.now said starts
            → OnOk result (PutsPaths first said self.old.paths.items self.new.paths.items) }
        ensures imports { OnOk result (self.new.imports.items ≡ self.old.imports.items
            ++ edges_of first (imports_among (length (units_of side.now.file.now.units)) first common lists.now)) }
    {
        put_units(side, lone, &mut self.units)?;
        put_paths(alloc, side, first, &mut self.paths)?;
        put_imports(
            lists,
            side.file.units.len(),
            first,
            common,
            &mut self.imports,
        )?;
        Ok(())
    }
}
