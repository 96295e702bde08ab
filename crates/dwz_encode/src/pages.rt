//! The bytes of a stretch of units.

ghost use Rattle.std.specs.Prelude.{◌≡◌, IfOk};
ghost use Rattle.dwz_encode.specs.Pages.{units_page};

use crate::put_unit;
use dwz_layout::{EntryTable, OutUnit, Spots, UnitItems, behind};
use dwz_model::{Blob, NoMemory};
use std::alloc::Global;

/// The bytes of units, the first of which has that number, in a buffer that has room for so many bytes.
pub(crate) fn page(
    alloc: Global,
    known: &EntryTable,
    spots: &Spots,
    first: u32,
    units: &[UnitItems],
    laid: &[OutUnit],
    reserved: u64,
) -> Result<Blob, NoMemory>
    ensures { IfOk result (λ page. page ≡ units_page known.now spots.now.places.items spots.now.roots.items first units.now laid.now) }
{
    let mut bytes = Vec::with_capacity(alloc, reserved as usize)?;
    let mut room = Vec::new(alloc);
    let mut here = first;
    for i in 0..units.len().min(laid.len()) {
        put_unit(
            &mut bytes, &mut room, known, spots, here, &units[i], &laid[i],
        )?;
        here = behind(here, 1)?;
    }
    Ok(Blob::new(bytes))
}
