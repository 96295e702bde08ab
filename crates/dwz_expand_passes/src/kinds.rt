//! What kind of unit a new unit is.

ghost use Rattle.std.specs.Prelude.{◌≡◌, ℕ, ◌<◌, List, [], Some, IfSome, get_or, length, slice_get};
ghost use Rattle.dwz_def_cross.specs.Tops.{WithCommon, whole_units};
ghost use Rattle.dwz_def_expand.specs.Refusals.{Where};
ghost use Rattle.dwz_def_expand.specs.Source.{source_places};
ghost use Rattle.dwz_def_reading.specs.Documents.{DwUnit, OfType, kind_map};
ghost use Rattle.dwz_def_reading.specs.Units.{RawUnit, entries_in};
ghost use Rattle.dwz_expand_sources.specs.Rows.{AreCopies};
ghost use Rattle.dwz_expand_layout.specs.Shown.{KindShows};
ghost use Rattle.dwz_expand_passes.specs.Kinds.{IsMain};
ghost use Rattle.dwz_expand_passes.specs.Passes.{IsReady, Says, entry_many};
ghost use Rattle.dwz_expand_passes.specs.Files.{IsFileReady, raw_in};
ghost use Rattle.dwz_expand_sources.specs.Imports.{same};
ghost use Rattle.dwz_expand_passes.specs.CopiesOf.{named_copy};
ghost use Rattle.dwz_expand_passes.specs.Numbered.{key_in};
ghost use Rattle.dwz_model.specs.Lists.{In};

use crate::files::SourceFile;
use crate::new_file::NewFile;
use dwz_codes::DW_UT_COMPILE;
use dwz_expand_layout::NewKind;
use dwz_expand_sources::Copies;
use dwz_expr::Operand;
use dwz_graph::entry_of;
use dwz_model::Base;

// The number of the entry that describes the type of a type unit (DWARF 5, 7.5.1.3), if it has one.
fn main_of(file: &SourceFile, unit: u32) -> Option<u32>
    requires ready { IsFileReady file.now }
    requires unit { unit < length (raw_in file.now) }
    ensures within { IfSome result (λ i. i < entries_in (raw_in file.now)) }
    ensures main { (u : RawUnit) → slice_get (raw_in file.now) unit ≡ Some u → IsMain (raw_in file.now) u result }
{
    let operand = Operand {
        at: 0,
        width: 4,
        uleb: false,
        base: Base::Unit,
        number: file.units.unit(unit).type_offset as u64,
    };
    entry_of(
        file.units,
        file.sections,
        &file.heres[unit as usize],
        &operand,
    )
}

// The number of the copy that describes the type.
fn main_copy(file: &NewFile, copies: &Copies, unit: u32) -> u64
    requires ready { IsReady file.now }
    requires unit { unit < length (raw_in file.now.own) }
    requires many { length copies.now.first ≡ entry_many file.now }
    requires copies { (roots : List ℕ) × AreCopies file.now.sources.now roots copies.now }
    requires there { copies.now.unit < length file.now.sources.now.units }
    ensures { (w : WithCommon ℕ) (stands : Where ℕ) (u : DwUnit ℕ) (signature k : ℕ) → Says file.now w stands
        → slice_get w.own unit ≡ Some u → u.kind ≡ OfType signature k → In k (get_or (source_places same w) copies.now.unit [])
        → key_in w result ≡ named_copy w copies.now.unit k }
{
    match main_of(&file.own, unit) {
        Some(entry) => match copies.copy_of(entry) {
            Some(copy) => copy.number,
            None => 0,
        },
        None => 0,
    }
}

/// The kind of the new unit at hand, which comes of the unit with a number.
pub(crate) fn kind_of(file: &NewFile, copies: &Copies, unit: u32) -> NewKind
    requires ready { IsReady file.now }
    requires unit { unit < length (raw_in file.now.own) }
    requires many { length copies.now.first ≡ entry_many file.now }
    requires copies { (roots : List ℕ) × AreCopies file.now.sources.now roots copies.now }
    requires there { copies.now.unit < length file.now.sources.now.units }
    ensures { (w : WithCommon ℕ) (stands : Where ℕ) (u : DwUnit ℕ) → Says file.now w stands → slice_get w.own unit ≡ Some u
        → slice_get (whole_units w.own) copies.now.unit ≡ Some u
        → KindShows (key_in w) result (kind_map (named_copy w copies.now.unit) u.kind) }
{
    let read = file.own.units.unit(unit);
    if read.kind == DW_UT_COMPILE {
        return NewKind::Compile;
    }
    NewKind::OfType {
        signature: read.signature,
        main: main_copy(file, copies, unit),
    }
}
