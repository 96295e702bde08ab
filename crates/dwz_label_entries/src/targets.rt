//! Entries that are named, by their paths in their tops.

ghost use Rattle.std.specs.Prelude.{◌≡◌, ℕ, ◌<◌, ◌++◌, ◌∷◌, List, Some, None, OnOk, length, map, take, drop, slice_get};
ghost use Rattle.std.specs.List.{flat_map};
ghost use Rattle.dwz_def_tops.specs.Spots.{EntryName};
ghost use Rattle.dwz_label_entries.specs.Targets.{KnowsNames};
ghost use Rattle.dwz_def_reading.specs.Units.{RawUnit};
ghost use Rattle.dwz_graph.specs.Rows.{AreTargets};
ghost use Rattle.dwz_graph.specs.Index.{IsIndex};
ghost use Rattle.dwz_graph.specs.Names.{path_in};
ghost use Rattle.dwz_label.specs.Labels.{each_counted, number, target_label};
ghost use Rattle.dwz_def_reading.specs.Lists.{Each};

use dwz_graph::Index;
use dwz_label::put_number;
use dwz_model::NoMemory;

/// Appends numbers.
pub fn put_steps(out: &mut Vec<u8>, steps: &[u32]) -> Result<(), NoMemory>
    ensures { OnOk result (out.new.items ≡ out.old.items ++ flat_map number steps.now) }
{
    for step in steps {
        put_number(out, *step as u128)?;
    }
    Ok(())
}

// Appends the path of an entry that is in a top. It is made in `path`.
fn put_way(
    out: &mut Vec<u8>,
    index: &Index,
    entry: u32,
    path: &mut Vec<u32>,
) -> Result<(), NoMemory>
    requires { entry < length index.now.steps }
    ensures { (names : List EntryName) (s : EntryName) → IsIndex names index.now → slice_get names entry ≡ Some s
        → OnOk result (out.new.items ≡ out.old.items ++ 1 ∷ each_counted number (path_in s)) }
{
    path.clear();
    index.put_path(entry, path)?;
    out.push(1)?;
    put_number(out, path.as_slice().len() as u128)?;
    put_steps(out, path)?;
    Ok(())
}

/// Appends the path of an entry in its top, whichever top that is; or that it is in none. The path is made in `path`.
pub fn put_target(
    out: &mut Vec<u8>,
    index: &Index,
    entry: u32,
    path: &mut Vec<u32>,
) -> Result<(), NoMemory>
    requires { entry < length index.now.steps }
    ensures { (names : List EntryName) (s : EntryName) → IsIndex names index.now → slice_get names entry ≡ Some s
        → OnOk result (out.new.items ≡ out.old.items ++ target_label s) }
{
    match index.top_of(entry) {
        None => {
            out.push(0)?;
            Ok(())
        }
        Some(_) => put_way(out, index, entry, path),
    }
}

/// The same of entries one after the other, where places have names.
pub(crate) fn put_targets(
    out: &mut Vec<u8>,
    index: &Index,
    entries: &[u32],
    path: &mut Vec<u32>,
) -> Result<(), NoMemory>
    requires { Each (λ i. i < length index.now.steps) entries.now }
    ensures { (raw : List RawUnit) (name : ℕ → EntryName) (places : List ℕ) → KnowsNames raw name index.now
        → AreTargets raw entries.now places
        → length places ≡ length entries.now → OnOk result (out.new.items ≡ out.old.items ++ flat_map target_label (map name places)) }
{
    for entry in entries {
        put_target(out, index, *entry, path)?;
    }
    Ok(())
}

/// As many numbers from one on as there are.
#[inline(always)]
pub fn part(refs: &[u32], next: usize, count: usize) -> &[u32]
    ensures part { result.now ≡ take count (drop next refs.now) }
    ensures within { (n : ℕ) → Each (λ i. i < n) refs.now → Each (λ i. i < n) result.now }
{
    let from = next.min(refs.len());
    let len = count.min(refs.len() - from);
    &refs[from..from + len]
}

/// Where numbers go on behind so many of them.
#[inline(always)]
pub(crate) fn behind(refs: &[u32], next: usize, count: usize) -> usize
    ensures { drop result refs.now ≡ drop count (drop next refs.now) }
{
    let from = next.min(refs.len());
    from + count.min(refs.len() - from)
}
