//! The plan of a file that was read.

ghost use Rattle.std.specs.Prelude.{◌≡◌, ℕ, ◌≤◌, ◌^◌, IfOk};
ghost use Rattle.std.specs.Option.{option_map};
ghost use Rattle.dwz_def_cross.specs.Tops.{WithCommon};
ghost use Rattle.dwz_def_reading.specs.Units.{entries_in};
ghost use Rattle.dwz_imports.specs.Said.{SaysBeside, raw_beside};
ghost use Rattle.dwz_expand_sources.specs.Sources.{AreSources};
ghost use Rattle.dwz_unit.specs.Rows.{units_of};

use crate::building::plan_of;
use crate::sources::Sources;
use dwz_graph::File;
use dwz_imports::imports_of;
use dwz_model::NoMemory;
use dwz_unit::Units;
use std::alloc::Global;

// The units of the common file, if there is one.
fn units_beside<'f, 'a>(common: Option<&'f File<'a>>) -> Option<&'f Units<'a>>
    ensures { option_map (λ u. u.now) result ≡ option_map (λ f. f.now.units) common.entry }
{
    match common {
        None => None,
        Some(file) => Some(&file.units),
    }
}

/// The plan of a file, and of the common file beside which it was read, if there is one: which entries are the sources of each new unit.
pub fn sources_of(alloc: Global, file: &File, common: Option<&File>) -> Result<Sources, NoMemory>
    requires own { entries_in (units_of file.now.units) ≤ 2 ^ 28 }
    requires common { entries_in (raw_beside (option_map (λ f. f.now.units) common)) ≤ 2 ^ 28 }
    requires says { (w : WithCommon ℕ) × SaysBeside (units_of file.now.units) (raw_beside (option_map (λ f. f.now.units) common)) w }
    ensures { (w : WithCommon ℕ) → SaysBeside (units_of file.now.units) (raw_beside (option_map (λ f. f.now.units) common.entry)) w
        → IfOk result (λ s. AreSources w s) }
{
    let imports = imports_of(alloc, file, common)?;
    plan_of(
        alloc,
        &file.units,
        units_beside(common),
        &imports.units,
        imports.importing.as_slice(),
    )
}
