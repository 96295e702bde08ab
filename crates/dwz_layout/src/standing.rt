//! Where the entries of a common file stand that stands already (DWARF 5, 7.3.6), and the roots of its units.

ghost use Rattle.std.specs.Prelude.{◌≡◌, IfOk};
ghost use Rattle.dwz_layout.specs.Laid.{over_made, standing_view};

use dwz_model::NoMemory;
use dwz_unit::Units;
use std::alloc::Global;

/// Where entries stand, of which there are so many: the last are those of the common file, and no other has a place.
pub(crate) fn standing_places(
    alloc: Global,
    entries: usize,
    common: &Units,
) -> Result<Vec<u64>, NoMemory>
    ensures { IfOk result (λ places. places.items ≡ (over_made entries (standing_view common.now)).places) }
{
    let count = common.entries();
    let mut places = Vec::with_capacity(alloc, entries)?;
    places.resize(entries.saturating_sub(count as usize), 0)?;
    for n in 0..count {
        let entry = common.entry(n);
        places.push(entry.at as u64)?;
    }
    Ok(places)
}

/// Where the roots of its units stand.
pub(crate) fn standing_roots(alloc: Global, common: &Units) -> Result<Vec<u64>, NoMemory>
    ensures { IfOk result (λ roots. roots.items ≡ (standing_view common.now).roots) }
{
    let mut roots = Vec::new(alloc);
    for n in 0..common.len() {
        let unit = common.unit(n);
        let root = common.entry(unit.first);
        roots.push(root.at as u64)?;
    }
    Ok(roots)
}
