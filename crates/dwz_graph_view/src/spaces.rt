//! The spaces around tops, by the numbers of these (DWARF 5, 3.2.2).

ghost use Rattle.std.specs.Prelude.{◌≡◌, ℕ, ◌++◌, List, None, Some, IfOk, IfSome, OnOk, map, slice_get};
ghost use Rattle.std.specs.Option.{option_map};
ghost use Rattle.dwz_def_reading.specs.Files.{Limits, around_of};
ghost use Rattle.dwz_def_tops.specs.Spots;
ghost use Rattle.dwz_def_tops.specs.Spots.{SpaceName, name_list, tops_of};
ghost use Rattle.dwz_graph.specs.Chains.{IsSpaceAt};
ghost use Rattle.dwz_graph.specs.Files.{IsRead, docs_of};
ghost use Rattle.dwz_graph.specs.Index as Seen;
ghost use Rattle.dwz_graph_view.specs.SpaceRows;
ghost use Rattle.dwz_graph_view.specs.SpaceRows.{HasTopAt, IsWayOut};
ghost use Rattle.dwz_unit.specs.Rows.{units_of};

use dwz_graph::{File, Graph, Index, SpaceEntry, TopEntry, here_of, space_text};
use dwz_model::NoMemory;
use std::alloc::Global;

// A top, and the number of its file.
#[derive(Clone, Copy)]
struct TopSpot {
    file: usize,
    top: TopEntry,
}

// The item with a number, where the first one has the number `first`.
fn item_with<T: Copy>(items: &[T], first: u32, number: u32) -> Option<T>
    ensures { result ≡ SpaceRows.item_with first items.now number }
{
    if number < first {
        return None;
    }
    items.get((number - first) as usize).copied()
}

// The top of a file with a number among those of all files.
fn own_top(index: &Index, number: u32) -> Option<TopEntry>
    ensures { result ≡ SpaceRows.own_top index.now number }
{
    item_with(index.tops(), index.starts().top, number)
}

// The top with a number among those of all files.
fn find_top(indexes: &[Index], number: u32) -> Option<TopSpot>
    ensures found { IfSome result (λ spot. HasTopAt indexes.now number spot) }
    ensures none { result ≡ None → (file : ℕ) (x : Seen.Index) → slice_get indexes.now file ≡ Some x → SpaceRows.own_top x number ≡ None }
{
    for (file, index) in indexes.iter().enumerate() {
        if let Some(top) = own_top(index, number) {
            return Some(TopSpot { file, top });
        }
    }
    None
}

// The space before a number, where there is one.
fn space_before(index: &Index, number: u32) -> Option<SpaceEntry>
    ensures { result ≡ SpaceRows.space_before index.now number }
{
    if number == 0 {
        return None;
    }
    item_with(index.spaces(), index.starts().space, number - 1)
}

// The name of the space that an entry is.
fn space_name<'a>(file: &File<'a>, entry: u32) -> &'a [u8]
    ensures { (l : Limits) (number : ℕ) (bytes : List ℕ) (unit : ℕ) (name : SpaceName) → IsRead l number bytes file.now
        → IsSpaceAt (units_of file.now.units) (around_of bytes (units_of file.now.units)) unit entry name → result.now ≡ name.text }
{
    let units = &file.units;
    if entry >= units.entries() {
        return &[];
    }
    let unit = units.entry(entry).unit;
    let here = here_of(units, unit, &units.unit(unit));
    match space_text(units, &file.sections, here.offsets, entry) {
        Some(text) => text,
        None => &[],
    }
}

// Appends the names of the spaces from one outward. It is the one before `inner`.
fn put_outward<'a>(
    file: &File<'a>,
    index: &Index,
    inner: u32,
    names: &mut Vec<&'a [u8]>,
) -> Result<(), NoMemory>
    ensures { (l : Limits) (number : ℕ) (bytes : List ℕ) (said : List SpaceName) → IsRead l number bytes file.now
        → IsWayOut bytes file.now index.now inner said
        → OnOk result (map (λ t. t.now) names.new.items ≡ map (λ t. t.now) names.old.items ++ map (λ s. s.text) said) }
{
    let mut at = inner;
    'outward: loop {
        let Some(space) = space_before(index, at) else {
            return Ok(());
        };
        // In an index, a space comes behind the one that it stands in.
        if space.outer >= at {
            return Ok(());
        }
        names.push(space_name(file, space.entry))?;
        at = space.outer;
    }
}

/// The names of the spaces that the top with a number, among those of all files, stands in: the outermost first, each as it is stored in
/// the top's file. A top in a root has none. None exactly where no top has the number.
pub fn spaces_of<'a>(
    alloc: Global,
    graph: &Graph<'a>,
    top: u32,
) -> Result<Option<Vec<&'a [u8]>>, NoMemory>
    ensures { IfOk result (λ names. option_map (λ v. map (λ t. t.now) v.items) names
        ≡ option_map name_list (slice_get (tops_of (Spots.units_of (docs_of graph.now.given))) top)) }
{
    let files = graph.files();
    let indexes = graph.indexes();
    let Some(TopSpot { file, top }) = find_top(indexes, top) else {
        return Ok(None);
    };
    let mut names = Vec::new(alloc);
    put_outward(&files[file], &indexes[file], top.inner, &mut names)?;
    names.reverse();
    Ok(Some(names))
}
