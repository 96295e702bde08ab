//! A file with new sections.

ghost use Rattle.std.specs.Prelude.{◌≡◌, None, OnOk};
ghost use Rattle.dwz_def_output.specs.Changed.{CanGiveAll, changes_by};
ghost use Rattle.dwz_def_reading.specs.ElfReading.{elf_of};
ghost use Rattle.dwz_elf.specs.Rebuilds.{Finishes};
ghost use Rattle.dwz_expand_file.specs.Giving.{IsThere, given};

use dwz_elf::{Elf, Rebuild};
use dwz_model::{
    Blob, DEBUG_ABBREV, DEBUG_ARANGES, DEBUG_INFO, DEBUG_LINE, DEBUG_LOCLISTS, DEBUG_STR,
    DEBUG_STR_OFFSETS, NoMemory, ReadErr, Sections,
};
use std::alloc::Global;

// Gives the section with a code its new bytes, if there are some. One that isn't there gets none.
fn give(rebuild: &mut Rebuild<'_>, elf: &Elf, code: u8, bytes: Option<Blob>) -> Result<(), NoMemory>
    requires { rebuild.old.elf ≡ elf.now }
    ensures file { OnOk result (rebuild.new.elf ≡ elf.now) }
    ensures given { IsThere elf.now code bytes → OnOk result (rebuild.new ≡ given code bytes rebuild.old) }
{
    if let Some(bytes) = bytes
        && elf.section(code).is_some()
    {
        rebuild.replace(code, bytes)?;
    }
    Ok(())
}

/// The file with these sections in place of its own.
pub(crate) fn rebuild_file(
    alloc: Global,
    bytes: &[u8],
    elf: &Elf,
    sections: Sections,
) -> Result<Vec<u8>, ReadErr>
    requires { elf.now ≡ elf_of bytes.now }
    ensures { CanGiveAll bytes.now sections
        → Finishes (λ out. out.items) (record { elf = elf_of bytes.now; changes = changes_by sections None }) bytes.now result }
{
    let Sections {
        info,
        abbrev,
        strs,
        offsets,
        line,
        loclists,
        aranges,
    } = sections;
    let mut rebuild = Rebuild::new(alloc, elf);
    give(&mut rebuild, elf, DEBUG_ARANGES, aranges)?;
    give(&mut rebuild, elf, DEBUG_LOCLISTS, loclists)?;
    give(&mut rebuild, elf, DEBUG_LINE, line)?;
    give(&mut rebuild, elf, DEBUG_STR_OFFSETS, offsets)?;
    give(&mut rebuild, elf, DEBUG_STR, strs)?;
    give(&mut rebuild, elf, DEBUG_ABBREV, Some(abbrev))?;
    give(&mut rebuild, elf, DEBUG_INFO, Some(info))?;
    rebuild.finish(alloc, bytes)
}
