//! Numbers that are too large for what holds them.

ghost use Rattle.std.specs.Prelude.{◌≡◌, ◌-◌, ◌<◌, ◌^◌, IfNone};
ghost use Rattle.dwz_def_expand.specs.OneFile.{OneFile, ReadsOne};
ghost use Rattle.dwz_def_output.specs.NewFiles.{IsFound};
ghost use Rattle.dwz_expand.specs.Units.{IsLaidOf};
ghost use Rattle.dwz_expand_layout.specs.Laid.{layout_view};
ghost use Rattle.dwz_expand_passes.specs.declared.new_file.NewFile.{NewFile};
ghost use Rattle.dwz_expand_sections.specs.Refusals.{HavePlaces, SizeRefusal};

use dwz_expand_layout::NewLayout;
use dwz_expand_sections::{NarrowPlaces, size_refusal};
use dwz_model::Refusal;

/// The first refusal of a file whose values can all be copied, where its new units are laid so, and where its first operands stand that
/// are too narrow: of one of these, or else of a section. Where there is none, places in the new `.debug_info` have four bytes.
pub(crate) fn sizes_refused(layout: &NewLayout, places: &NarrowPlaces) -> Option<Refusal>
    ensures found { (f : OneFile) (x : NewFile) → ReadsOne f → IsLaidOf f x (layout_view layout.now) → HavePlaces f places.now
        → IsFound (SizeRefusal f) result }
    ensures fits { IfNone result (layout.now.end < 2 ^ 32 - 16) }
{
    size_refusal(places, layout.end, layout.tables.len())
}
