//! Entries that are named, by their paths in their tops.

ghost use Rattle.std.specs.Prelude.{◌≡◌, ℕ, suc, List, ◌*◌, ◌<◌, ◌++◌, Some, OnOk, length, slice_get};
ghost use Rattle.std.specs.List.{flat_map};
ghost use Rattle.dwz_def_tops.specs.Spots.{EntryName};
ghost use Rattle.dwz_graph.specs.Index.{IsIndex};
ghost use Rattle.dwz_graph.specs.Names.{path_in};
ghost use Rattle.dwz_label_marks.specs.Marks.{target_marks};
ghost use Rattle.dwz_label_marks.specs.Told.{Adds};
ghost use Rattle.dwz_label_words.specs.Plain.{plainly};

use dwz_graph::Index;
use dwz_label_marks::put_plainly;
use dwz_model::NoMemory;

// Appends the marks of numbers.
fn put_steps(out: &mut Vec<u8>, steps: &[u32]) -> Result<(), NoMemory>
    ensures { OnOk result (out.new.items ≡ out.old.items ++ flat_map plainly steps.now) }
{
    for step in steps {
        put_plainly(out, *step as u64)?;
    }
    Ok(())
}

// Appends the path of an entry that is in a top. It is made in `path`.
fn put_way(
    out: &mut Vec<u8>,
    index: &Index,
    entry: u32,
    path: &mut Vec<u32>,
) -> Result<(), NoMemory>
    requires { entry < length index.now.steps }
    ensures { (names : List EntryName) (s : EntryName) → IsIndex names index.now → slice_get names entry ≡ Some s
        → OnOk result (out.new.items ≡ out.old.items ++ (plainly (suc (length (path_in s))) ++ flat_map plainly (path_in s))) }
{
    path.clear();
    index.put_path(entry, path)?;
    put_plainly(out, path.as_slice().len() as u64 + 1)?;
    put_steps(out, path)
}

/// Appends the path of an entry in its top, whichever top that is; or that it is in none. The path is made in `path`.
#[inline(always)]
pub(crate) fn put_target(
    out: &mut Vec<u8>,
    index: &Index,
    entry: u32,
    path: &mut Vec<u32>,
) -> Result<(), NoMemory>
    requires { entry < length index.now.steps }
    ensures { (told : List (List ℕ)) (names : List EntryName) (s : EntryName) → IsIndex names index.now → slice_get names entry ≡ Some s
        → OnOk result (Adds told (target_marks s) out.old.items out.new.items) }
{
    match index.top_of(entry) {
        None => put_plainly(out, 0),
        Some(_) => {
            if index.is_outermost(entry) {
                put_plainly(out, 1)
            } else {
                put_way(out, index, entry, path)
            }
        }
    }
}
