//! The first operands of copied entries that are too narrow.

ghost use Rattle.std.specs.Prelude.{◌≡◌, IfOk, List};
ghost use Rattle.dwz_def_expand.specs.OneFile.{OneFile};
ghost use Rattle.dwz_expand_layout.specs.Laid.{layout_view};
ghost use Rattle.dwz_expand.specs.Told.{AreFirst, AreFirstOf, common_told, own_told};
ghost use Rattle.dwz_expand_passes.specs.Noted.{AreNoted, Noted};
ghost use Rattle.dwz_expand_passes.specs.Passes.{IsReady, IsRefused};
ghost use Rattle.dwz_expand_sections.specs.Narrow.{FirstPlace};
ghost use Rattle.dwz_expand.specs.Units.{CanBeCopied, IsLaidOf, IsOfOne};

use crate::laws::fault_laws;
use crate::told::{note_all, start_at};
use dwz_expand_layout::{NewEntry, NewKind, NewLayout};
use dwz_expand_passes::{NewFile, Pass, pass_units};
use dwz_model::{NoMemory, ReadErr};
use std::alloc::AllocError;

/// The places of the first operands that are too narrow, in bytes from the first of `.debug_info`.
#[derive(Clone, Copy)]
pub(crate) struct CopiedPlaces {
    /// Of the entries of the file.
    pub own: Option<u64>,
    /// Of those of its common file.
    pub common: Option<u64>,
}

// Those of the entries so far, where new units are laid so.
#[derive(Drop)]
struct NarrowPass<'l> {
    layout: &'l NewLayout,
    places: CopiedPlaces,
}

impl<'l> Pass for NarrowPass<'l> {
    ghost done = { λ made p units. layout_view p.layout.now ≡ made };

    ghost within = { λ made p units kind lines. layout_view p.layout.now ≡ made };

    ghost noted = { λ p given. AreFirst (layout_view p.layout.now) given p.places };

    fn start(&mut self, _kind: NewKind) -> Result<(), NoMemory> {
        Ok(())
    }

    fn put(
        &mut self,
        unit: usize,
        _source: u32,
        common: bool,
        entry: &NewEntry,
    ) -> Result<(), NoMemory> {
        let start = start_at(self.layout, unit);
        if common {
            self.places.common = note_all(self.places.common, self.layout, start, entry.operands);
        } else {
            self.places.own = note_all(self.places.own, self.layout, start, entry.operands);
        }
        Ok(())
    }

    fn close(&mut self) -> Result<(), NoMemory> {
        Ok(())
    }
}

// The places of the first operands of expressions whose new numbers need more bytes than they have, of the entries of a file and of its
// common file that new units copy, where these are laid so. Refused as `lay` refuses.
fn first_told(file: &NewFile, layout: &NewLayout) -> Result<CopiedPlaces, ReadErr>
    requires { IsReady file.now }
    ensures places { IfOk result (λ places. (given : List Noted) × AreNoted file.now given
        × AreFirst (layout_view layout.now) given places) }
    ensures refused { IsRefused file.now result }
{
    let mut pass = NarrowPass {
        layout,
        places: CopiedPlaces {
            own: None,
            common: None,
        },
    };
    pass_units(&mut pass, file)?;
    Ok(pass.places)
}

/// The places of the first operands of expressions whose new numbers need more bytes than they have, of the values of a file and of those
/// of its common file, where its new units are laid so. Each value can be copied.
pub(crate) fn first_narrow_copied(
    file: &NewFile,
    layout: &NewLayout,
) -> Result<CopiedPlaces, NoMemory>
    requires copied { (f : OneFile) × IsOfOne f file.now × CanBeCopied f }
    ensures { (f : OneFile) → IsOfOne f file.now → IsLaidOf f file.now (layout_view layout.now) → IfOk result (AreFirstOf f) }
{
    fault_laws();
    match first_told(file, layout) {
        Ok(places) => Ok(places),
        Err(ReadErr::NoMemory) => Err(AllocError),
        Err(ReadErr::Refused(_)) => unreachable!(),
    }
}
