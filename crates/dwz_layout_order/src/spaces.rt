//! The spaces of all files, and the name lists of the spaces that tops stand in.

ghost use Rattle.std.specs.Prelude.{◌≡◌, ◌+◌, ◌<◌, ◌^◌, ◌++◌, length, map, IfOk, OnOk};
ghost use Rattle.dwz_layout_items.specs.Chains.{IsRising};
ghost use Rattle.dwz_layout_order.specs.Lists.{AreLists, IsNumberUnder, all_spaces, all_tops, list_above, rows_from, spaces_at};

use dwz_graph::{Index, SpaceEntry, TopEntry};
use dwz_layout_items::{SpaceRow, TopSpaces};
use dwz_model::NoMemory;
use std::alloc::Global;
use std::collections::BTreeMap;

// Appends the rows of the spaces of a file.
fn push_rows(rows: &mut Vec<SpaceRow>, spaces: &[SpaceEntry]) -> Result<(), NoMemory>
    requires { length rows.old.items + length spaces.now < 2 ^ 32 }
    ensures { OnOk result (rows.new.items ≡ rows.old.items ++ rows_from (length rows.old.items) spaces.now) }
{
    for space in spaces {
        let number = rows.len() as u32;
        rows.push(SpaceRow {
            space: number,
            outer: space.outer,
        })?;
    }
    Ok(())
}

/// For each space of all files, by its number, the one that it stands in.
pub fn space_rows(alloc: Global, indexes: &[Index]) -> Result<Vec<SpaceRow>, NoMemory>
    requires { length (all_spaces indexes.now) < 2 ^ 32 }
    ensures { IfOk result (λ rows. rows.items ≡ rows_from 0 (all_spaces indexes.now)) }
{
    let mut rows = Vec::new(alloc);
    for index in indexes {
        push_rows(&mut rows, index.spaces())?;
    }
    Ok(rows)
}

// The number of a name list: that under which it was met, or else a new one.
fn number_under(seen: &mut BTreeMap<u64, u32>, key: u64, new: u32) -> Result<u32, NoMemory>
    ensures { IfOk result (λ number. IsNumberUnder seen.old seen.new key new number) }
{
    if let Some(number) = seen.get(&key) {
        return Ok(*number);
    }
    seen.insert(key, new)?;
    Ok(new)
}

// The number of the name list of the space before that number, and 0 of none.
fn list_of(lists: &[u32], outer: u32) -> u32
    ensures { result ≡ list_above lists.now outer }
{
    if outer == 0 {
        return 0;
    }
    match lists.get(outer as usize - 1) {
        Some(list) => *list,
        None => 0,
    }
}

/// For each space the number of its name list: that of the space that it stands in, and its own name behind it. Equal texts have equal
/// numbers.
pub fn number_lists(alloc: Global, rows: &[SpaceRow], texts: &[u32]) -> Result<Vec<u32>, NoMemory>
    requires many { length texts.now ≡ length rows.now }
    requires few { length rows.now + 1 < 2 ^ 32 }
    requires rising { IsRising rows.now }
    ensures { IfOk result (λ lists. AreLists rows.now texts.now lists.items) }
{
    let mut lists = Vec::with_capacity(alloc, rows.len())?;
    let mut seen = BTreeMap::new(alloc);
    for (k, row) in rows.iter().enumerate() {
        let outer = list_of(lists.as_slice(), row.outer);
        let key = outer as u64 * 0x1_0000_0000 + texts[k] as u64;
        let number = number_under(&mut seen, key, k as u32 + 1)?;
        lists.push(number)?;
    }
    Ok(lists)
}

// Appends what spaces the tops of a file stand in.
fn push_tops(of_tops: &mut Vec<TopSpaces>, lists: &[u32], tops: &[TopEntry]) -> Result<(), NoMemory>
    ensures { OnOk result (of_tops.new.items ≡ of_tops.old.items ++ map (spaces_at lists.now) tops.now) }
{
    for top in tops {
        of_tops.push(TopSpaces {
            inner: top.inner,
            names: list_of(lists, top.inner),
        })?;
    }
    Ok(())
}

/// For each top of all files, by its number, the spaces that it stands in.
pub fn top_spaces(
    alloc: Global,
    indexes: &[Index],
    lists: &[u32],
) -> Result<Vec<TopSpaces>, NoMemory>
    ensures { IfOk result (λ of_tops. of_tops.items ≡ map (spaces_at lists.now) (all_tops indexes.now)) }
{
    let mut of_tops = Vec::new(alloc);
    for index in indexes {
        push_tops(&mut of_tops, lists, index.tops())?;
    }
    Ok(of_tops)
}
