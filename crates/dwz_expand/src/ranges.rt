//! The address ranges of a file whose new units are laid (DWARF 5, 6.1.2).

ghost use Rattle.std.specs.Prelude.{◌≡◌, ◌-◌, ◌<◌, ◌^◌, IfOk};
ghost use Rattle.dwz_def_expand.specs.OneFile.{OneFile};
ghost use Rattle.dwz_def_expand.specs.Output.{new_ranges};
ghost use Rattle.dwz_def_reading.specs.Files.{unit_places};
ghost use Rattle.dwz_expand.specs.Expanded.{IsFileOf};
ghost use Rattle.dwz_expand.specs.Units.{IsLaidOf};
ghost use Rattle.dwz_expand_layout.specs.Laid.{layout_view};
ghost use Rattle.dwz_expand_passes.specs.declared.new_file.NewFile.{NewFile};
ghost use Rattle.dwz_unit.specs.Rows.{units_of};

use dwz_codes::DW_UT_PARTIAL;
use dwz_expand_layout::NewLayout;
use dwz_expand_sections::{ranges_after, start_laws};
use dwz_graph::File;
use dwz_model::NoMemory;
use dwz_unit::Units;
use std::alloc::Global;

// Where the units of a file begin that aren't partial, in order.
fn whole_places(alloc: Global, units: &Units) -> Result<Vec<u32>, NoMemory>
    ensures { IfOk result (λ places. places.items ≡ unit_places (units_of units.now)) }
{
    let mut places = Vec::new(alloc);
    for n in 0..units.len() {
        let unit = units.unit(n);
        if unit.kind != DW_UT_PARTIAL {
            places.push(unit.at)?;
        }
    }
    Ok(places)
}

/// The new `.debug_aranges` of a file whose new units are laid so, and aren't too large together.
pub(crate) fn ranges_written(
    alloc: Global,
    own: &File,
    layout: &NewLayout,
) -> Result<Vec<u8>, NoMemory>
    requires laid { (f : OneFile) × (x : NewFile) × IsFileOf f own.now × IsLaidOf f x (layout_view layout.now) }
    requires few { layout.now.end < 2 ^ 32 - 16 }
    ensures { (f : OneFile) (x : NewFile) → IsFileOf f own.now → IsLaidOf f x (layout_view layout.now)
        → IfOk result (λ out. out.items ≡ new_ranges f) }
{
    start_laws();
    let places = whole_places(alloc, &own.units)?;
    ranges_after(alloc, own.sections.aranges, &places, &layout.units)
}
