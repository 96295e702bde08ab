//! Where units begin after (DWARF 5, 7.5.1).

ghost use Rattle.std.specs.Prelude.{◌≡◌, ◌-◌, IfOk, length};
ghost use Rattle.dwz_def_reading.specs.Units.{RawKind, header_size};
ghost use Rattle.dwz_run_files.specs.Spots.{unit_places_from};
ghost use Rattle.dwz_unit.specs.Rows.{kind_number, units_of};

use dwz_codes::DW_UT_TYPE;
use dwz_model::{NoMemory, at_or};
use dwz_unit::Units;
use std::alloc::Global;

// How many bytes the header of a unit of that type has.
#[inline(always)]
fn header_bytes(kind: u8) -> u64
    ensures { (k : RawKind) → kind ≡ kind_number k → result ≡ header_size k }
{
    if kind == DW_UT_TYPE {
        return 24;
    }
    12
}

// Where a unit of that type begins, whose root stands there.
#[inline(always)]
fn before_root(root: u64, kind: u8) -> u64
    ensures { (k : RawKind) → kind ≡ kind_number k → result ≡ root - header_size k }
{
    root.saturating_sub(header_bytes(kind))
}

/// For each unit of a file, in order, where it begins after: at the place of its root, less the bytes of its header (DWARF 5, 7.5.1), in
/// bytes from the first of `.debug_info`, or at 0 if its root stands nearer to that.
///
/// The file's first entry has the number `start` among those of all files, and `places` says for each entry by its number where it
/// stands after.
pub fn unit_places(
    alloc: Global,
    units: &Units,
    start: u32,
    places: &[u64],
) -> Result<Vec<u64>, NoMemory>
    ensures many { IfOk result (λ v. length v.items ≡ length (units_of units.now)) }
    ensures are { IfOk result (λ v. v.items ≡ unit_places_from start places.now (units_of units.now)) }
{
    let mut out = Vec::with_capacity(alloc, units.len() as usize)?;
    for n in 0..units.len() {
        let unit = units.unit(n);
        let root = at_or(places, start as usize + unit.first as usize, 0);
        out.push(before_root(root, unit.kind))?;
    }
    Ok(out)
}
