//! The new sections of a file, each value of which can be copied.

ghost use Rattle.std.specs.Prelude.{◌≡◌, ◌-◌, ◌<◌, ◌^◌, IfOk, length};
ghost use Rattle.dwz_def_expand.specs.OneFile.{OneFile};
ghost use Rattle.dwz_def_expand.specs.Output.{new_sections};
ghost use Rattle.dwz_def_output.specs.Contents;
ghost use Rattle.dwz_def_tops.specs.Spots.{same_numbers};
ghost use Rattle.dwz_expand.specs.Expanded.{AnswersSizes, IsFileOf};
ghost use Rattle.dwz_expand_layout.specs.Laid.{layout_view};
ghost use Rattle.dwz_expand_sections.specs.Lists.{HasNumbers};
ghost use Rattle.dwz_expand_sections.specs.Refusals.{HavePlaces};
ghost use Rattle.dwz_expand.specs.Units.{CanBeCopied, IsLaidOf, IsOfOne};

use crate::narrow::first_narrow_copied;
use crate::numbers::list_numbers;
use crate::ranges::ranges_written;
use crate::sizes::sizes_refused;
use crate::units::{laid, units_written};
use dwz_expand_layout::NewLayout;
use dwz_expand_passes::NewFile;
use dwz_expand_sections::{NarrowPlaces, first_listed, list_laws, lists_after, number_laws};
use dwz_graph::File;
use dwz_model::{Blob, GraphErr, NoMemory, Sections};

// Whether bytes are the same.
fn same(old: &[u8], new: &[u8]) -> bool
    ensures { result ≡ same_numbers old.now new.now }
{
    old == new
}

// The new bytes of a section, or None where they are the old ones.
fn if_other(old: &[u8], new: Vec<u8>) -> Option<Blob>
    ensures { result ≡ Contents.if_other old.now new.items }
{
    if same(old, &new) {
        None
    } else {
        Some(Blob::new(new))
    }
}

// The new sections of a file whose new units are laid so, where the operands of its location lists have these numbers.
fn written(
    own: &File,
    file: &NewFile,
    layout: &NewLayout,
    numbers: &[Option<u64>],
) -> Result<Sections, NoMemory>
    requires file { (f : OneFile) × IsFileOf f own.now × IsOfOne f file.now × CanBeCopied f
        × IsLaidOf f file.now (layout_view layout.now) }
    requires many { length numbers.now ≡ length own.now.resolved.operands.items }
    requires few { layout.now.end < 2 ^ 32 - 16 }
    ensures { (f : OneFile) → IsFileOf f own.now → IsOfOne f file.now → IsLaidOf f file.now (layout_view layout.now)
        → HasNumbers f own.now.sections.lists.now own.now.resolved.operands.items numbers.now
        → IfOk result (λ sections. sections ≡ new_sections f) }
{
    list_laws();
    let info = units_written(file, layout)?;
    let abbrev = layout.tables.section().to_vec(file.alloc)?;
    let lists = lists_after(
        file.alloc,
        own.sections.lists,
        own.resolved.operands.as_slice(),
        numbers,
    )?;
    let aranges = ranges_written(file.alloc, own, layout)?;
    Ok(Sections {
        info: Blob::new(info),
        abbrev: Blob::new(abbrev),
        strs: None,
        offsets: None,
        line: None,
        loclists: if_other(own.sections.lists, lists),
        aranges: if_other(own.sections.aranges, aranges),
    })
}

// The places of the first operands that are too narrow, where new units are laid so, and the operands of location lists have these numbers.
fn places_of(
    own: &File,
    file: &NewFile,
    layout: &NewLayout,
    numbers: &[Option<u64>],
) -> Result<NarrowPlaces, NoMemory>
    requires copied { (f : OneFile) × IsOfOne f file.now × CanBeCopied f }
    requires many { length numbers.now ≡ length own.now.resolved.operands.items }
    ensures { (f : OneFile) → IsOfOne f file.now → IsLaidOf f file.now (layout_view layout.now)
        → HasNumbers f own.now.sections.lists.now own.now.resolved.operands.items numbers.now → IfOk result (HavePlaces f) }
{
    let copied = first_narrow_copied(file, layout)?;
    Ok(NarrowPlaces {
        own: copied.own,
        listed: first_listed(own.resolved.operands.as_slice(), numbers),
        common: copied.common,
    })
}

/// The new sections of a file of which this is kept, and each value of which can be copied. Refused with the first number or section that is
/// too large.
pub(crate) fn sections_of(own: &File, file: &NewFile) -> Result<Sections, GraphErr>
    requires sections { file.now.own.sections.now ≡ own.now.sections }
    requires file { (f : OneFile) × IsFileOf f own.now × IsOfOne f file.now × CanBeCopied f }
    ensures { (f : OneFile) → IsFileOf f own.now → IsOfOne f file.now → CanBeCopied f → AnswersSizes f result }
{
    number_laws();
    let layout = laid(file)?;
    let numbers = list_numbers(file, own.resolved.operands.as_slice(), &layout)?;
    let places = places_of(own, file, &layout, numbers.as_slice())?;
    match sizes_refused(&layout, &places) {
        Some(refusal) => Err(GraphErr::Refused(refusal)),
        None => {
            let sections = written(own, file, &layout, numbers.as_slice())?;
            Ok(sections)
        }
    }
}
