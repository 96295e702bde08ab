//! The two passes over all new units.

ghost use Rattle.std.specs.Prelude.{◌≡◌, ℕ, IfOk, List};
ghost use Rattle.dwz_def_cross.specs.Tops.{WithCommon};
ghost use Rattle.dwz_def_expand.specs.Refusals.{Where};
ghost use Rattle.dwz_expand_layout.specs.Entries.{UnitLines};
ghost use Rattle.dwz_expand_layout.specs.Laid.{laid, layout_view};
ghost use Rattle.dwz_expand_layout.specs.Written.{written};
ghost use Rattle.dwz_expand_passes.specs.Passes.{AreNew, IsReady, IsRefused, Says};

use crate::new_file::NewFile;
use crate::units::pass_units;
use dwz_expand_layout::{Laying, NewLayout, Writing};
use dwz_model::ReadErr;

/// Where the new units of a file stand, which have the copies of its plan's sources. Refused at the first value that can't be copied, in
/// the order of units, entries and attributes, with a fault in the file of its entry: as `NotImported` where it names an entry that no new
/// unit has, and as `NoRow` at the number of a file that has no row in the line table of the new unit.
pub fn lay(file: &NewFile) -> Result<NewLayout, ReadErr>
    requires { IsReady file.now }
    ensures lays { IfOk result (λ l. (order : List UnitLines) × (layout_view l ≡ laid order) × AreNew file.now order) }
    ensures refused { IsRefused file.now result }
{
    let mut laying = Laying::new(file.alloc);
    pass_units(&mut laying, file)?;
    Ok(laying.finish())
}

/// The bytes of the new units of a file, where these are laid so. Refused as `lay` refuses.
pub fn write(file: &NewFile, layout: &NewLayout) -> Result<Vec<u8>, ReadErr>
    requires { IsReady file.now }
    ensures writes { IfOk result (λ bytes. (order : List UnitLines) × (bytes.items ≡ written (layout_view layout.now) order)
        × AreNew file.now order) }
    ensures one { (order : List UnitLines) (w : WithCommon ℕ) (stands : Where ℕ) → AreNew file.now order → Says file.now w stands
        → IfOk result (λ bytes. bytes.items ≡ written (layout_view layout.now) order) }
    ensures refused { IsRefused file.now result }
{
    let mut writing = Writing::new(file.alloc, layout)?;
    pass_units(&mut writing, file)?;
    Ok(writing.finish())
}
