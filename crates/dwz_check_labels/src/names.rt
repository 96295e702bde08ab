//! What an entry that is named is called.

ghost use Rattle.std.specs.Prelude.{◌≡◌, ℕ, ◌<◌, ◌++◌, ◌∷◌, [], List, Some, OnOk, length, slice_get};
ghost use Rattle.dwz_def_reading.specs.Documents.{DwUnit};
ghost use Rattle.dwz_def_reading.specs.Meanings.{Around};
ghost use Rattle.dwz_label.specs.Labels.{counted, each_counted};
ghost use Rattle.dwz_def_check.specs.CrossLabels.{name_label, names_into};
ghost use Rattle.dwz_check_index.specs.Index.{Called, ShowNames, listed_units, names_in};
ghost use Rattle.dwz_check_labels.specs.Files.{IsFileReady, Says, raw_in};
ghost use Rattle.dwz_check_labels.specs.Told.{Tells};
ghost use Rattle.dwz_def_reading.specs.Units.{entries_in};

use crate::named_file::NamedFile;
use crate::paths::put_path;
use crate::space_names::{put_space_names, spaces_to};
use dwz_check_index::Stands;
use dwz_label::put_number;
use dwz_model::NoMemory;

/// Appends the names of the spaces down to an entry, behind their number, if it is a space. Their numbers are made in `spaces`.
pub(crate) fn put_spaces_to(
    out: &mut Vec<u8>,
    file: &NamedFile,
    entry: u32,
    spaces: &mut Vec<u32>,
) -> Result<(), NoMemory>
    requires ready { IsFileReady file.now }
    requires there { entry < entries_in (raw_in file.now) }
    ensures { (around : Around ℕ) (said : List (DwUnit ℕ)) (names : List Called) (name : Called) → Says file.now around said
        → ShowNames names (listed_units said) file.now.index.now.steps → slice_get names entry ≡ Some name
        → OnOk result (out.new.items ≡ out.old.items ++ each_counted counted (names_in name.1)) }
{
    spaces_to(file.index, entry, spaces)?;
    put_space_names(out, file, spaces)
}

/// Appends what the entry with a number is called, whichever top it is in; and the number of this top, if it is in one. `steps` is a row
/// for the way there.
pub(crate) fn put_name(
    out: &mut Vec<u8>,
    tops: &mut Vec<u32>,
    file: &NamedFile,
    entry: u32,
    steps: &mut Vec<u32>,
) -> Result<(), NoMemory>
    requires ready { IsFileReady file.now }
    requires there { entry < entries_in (raw_in file.now) }
    ensures { (around : Around ℕ) (said : List (DwUnit ℕ)) (names : List Called) (name : Called) → Says file.now around said
        → ShowNames names (listed_units said) file.now.index.now.steps → slice_get names entry ≡ Some name
        → OnOk result (Tells (name_label name.1) (names_into (name.1 ∷ [])) out.old.items out.new.items tops.old.items tops.new.items) }
{
    match file.index.stands(entry) {
        Stands::InTop(top) => {
            put_path(out, file.index, entry, steps)?;
            tops.push(top)?;
            Ok(())
        }
        Stands::UnitRoot(unit) => {
            out.push(2)?;
            put_number(out, unit as u128)?;
            Ok(())
        }
        Stands::UnitSpace(unit) => {
            out.push(3)?;
            put_number(out, unit as u128)?;
            put_spaces_to(out, file, entry, steps)?;
            Ok(())
        }
        Stands::PartialRoot => {
            out.push(4)?;
            Ok(())
        }
        Stands::PartialSpace => {
            out.push(5)?;
            put_spaces_to(out, file, entry, steps)?;
            Ok(())
        }
    }
}
