//! The bases of the slots of units (DWARF 5, 3.1.1, `DW_AT_str_offsets_base`).

ghost use Rattle.std.specs.Prelude.{◌≡◌, map, IfOk};
ghost use Rattle.dwz_unit.specs.Rows.{units_of};
ghost use Rattle.dwz_encode_common.specs.Stored.{file_bases, slots_base};

use dwz_graph::here_of;
use dwz_layout::FileRows;
use dwz_model::NoMemory;
use dwz_unit::Units;
use std::alloc::Global;

// For each unit of a file the base of its slots of `.debug_str_offsets`, where it has one.
pub(crate) fn bases_of_units(alloc: Global, units: &Units) -> Result<Vec<Option<u32>>, NoMemory>
    ensures { IfOk result (λ bases. bases.items ≡ map slots_base (units_of units.now)) }
{
    let mut bases = Vec::with_capacity(alloc, units.len() as usize)?;
    for n in 0..units.len() {
        let unit = units.unit(n);
        bases.push(here_of(units, n, &unit).offsets)?;
    }
    Ok(bases)
}

/// The same of each file.
pub(crate) fn bases_of_files(
    alloc: Global,
    files: &[FileRows],
) -> Result<Vec<Vec<Option<u32>>>, NoMemory>
    ensures { IfOk result (λ all. map (λ bases. bases.items) all.items ≡ map file_bases files.now) }
{
    let mut all = Vec::with_capacity(alloc, files.len())?;
    for file in files {
        let bases = bases_of_units(alloc, file.units)?;
        all.push(bases)?;
    }
    Ok(all)
}
