//! The path of an entry in its top.

ghost use Rattle.std.specs.Prelude.{◌≡◌, ℕ, ◌<◌, ◌++◌, ◌∷◌, List, Some, OnOk, length, slice_get};
ghost use Rattle.dwz_label.specs.Labels.{each_counted, number};
ghost use Rattle.dwz_check_index.specs.Index.{Called, ListedEntry, ShowNames, path_in};

use dwz_check_index::CrossIndex;
use dwz_label::put_number;
use dwz_label_entries::put_steps;
use dwz_model::NoMemory;

/// Appends the path of an entry that is in a top. It is made in `path`.
pub(crate) fn put_path(
    out: &mut Vec<u8>,
    index: &CrossIndex,
    entry: u32,
    path: &mut Vec<u32>,
) -> Result<(), NoMemory>
    requires { entry < length index.now.steps }
    ensures { (names : List Called) (entries : List (ListedEntry ℕ)) (name : Called) → ShowNames names entries index.now.steps
        → slice_get names entry ≡ Some name → OnOk result (out.new.items ≡ out.old.items ++ 1 ∷ each_counted number (path_in name.1)) }
{
    path.clear();
    index.put_path(entry, path)?;
    out.push(1)?;
    put_number(out, path.as_slice().len() as u128)?;
    put_steps(out, path)?;
    Ok(())
}
