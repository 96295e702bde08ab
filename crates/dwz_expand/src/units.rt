//! Where new units stand, and their bytes.

ghost use Rattle.std.specs.Prelude.{◌≡◌, IfOk};
ghost use Rattle.dwz_def_expand.specs.OneFile.{OneFile};
ghost use Rattle.dwz_def_expand.specs.Output.{new_sections};
ghost use Rattle.dwz_expand.specs.Units.{CanBeCopied, IsLaidOf, IsOfOne};
ghost use Rattle.dwz_expand_layout.specs.Laid.{layout_view};

use crate::laws::fault_laws;
use dwz_expand_layout::NewLayout;
use dwz_expand_passes::{NewFile, file_laws, lay, write};
use dwz_model::{NoMemory, ReadErr};
use std::alloc::AllocError;

/// Where the new units of a file stand, each value of which can be copied.
pub(crate) fn laid(file: &NewFile) -> Result<NewLayout, NoMemory>
    requires copied { (f : OneFile) × IsOfOne f file.now × CanBeCopied f }
    ensures { (f : OneFile) → IsOfOne f file.now → IfOk result (λ l. IsLaidOf f file.now (layout_view l)) }
{
    fault_laws();
    file_laws();
    match lay(file) {
        Ok(layout) => Ok(layout),
        Err(ReadErr::NoMemory) => Err(AllocError),
        Err(ReadErr::Refused(_)) => unreachable!(),
    }
}

/// The new `.debug_info` of a file, each value of which can be copied, where its units are laid so.
pub(crate) fn units_written(file: &NewFile, layout: &NewLayout) -> Result<Vec<u8>, NoMemory>
    requires copied { (f : OneFile) × IsOfOne f file.now × CanBeCopied f }
    ensures { (f : OneFile) → IsOfOne f file.now → IsLaidOf f file.now (layout_view layout.now)
        → IfOk result (λ bytes. bytes.items ≡ (new_sections f).info) }
{
    fault_laws();
    match write(file, layout) {
        Ok(bytes) => Ok(bytes),
        Err(ReadErr::NoMemory) => Err(AllocError),
        Err(ReadErr::Refused(_)) => unreachable!(),
    }
}
