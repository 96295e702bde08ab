//! The names of spaces, by numbers.

ghost use Rattle.std.specs.Prelude.{◌≡◌, ℕ, ◌+◌, ◌<◌, ◌≤◌, ◌^◌, All, List, Ok, Some, length, slice_get, IfOk, OnOk};
ghost use Rattle.dwz_def_tops.specs.Spots.{units_of};
ghost use Rattle.dwz_def_reading.specs.Units.{RawUnit, entries_in};
ghost use Rattle.dwz_graph.specs.Files.{docs_of};
ghost use Rattle.dwz_graph.specs.Spaces.{IsOwn};
ghost use Rattle.dwz_graph.specs.Index.{Index};
ghost use Rattle.dwz_graph.specs.Indexed.{AreIndexes};
ghost use Rattle.dwz_def_reading.specs.Documents.{Node};
ghost use Rattle.dwz_def_reading.specs.Meanings.{MeaningContext};
ghost use Rattle.dwz_def_reading.specs.Meant.{node_meaning};
ghost use Rattle.dwz_layout_order.specs.Lists.{all_spaces, rows_from};
ghost use Rattle.dwz_layout_order.specs.Shown.{NumbersTexts};
ghost use Rattle.dwz_layout_order.specs.Spaces.{said_of};
ghost use Rattle.dwz_graph.specs.Resolved.{IsHere, around};
ghost use Rattle.dwz_def_tops.specs.Spaces as Seen;
ghost use Rattle.dwz_unit.specs.Rows.{EntryRow, rows_of, units_of as raw_units};
ghost use Rattle.dwz_layout_input.specs.Names.{HaveNumbers, IsFound, Reads, WasHere, look};

use dwz_graph::{Graph, Here, InputSections, SpaceEntry, here_of, space_text};
use dwz_model::NoMemory;
use dwz_unit::Units;
use std::alloc::Global;
use std::collections::BTreeMap;

// The number of a text: that under which it was met, or else the new one.
fn number_of<'t>(
    seen: &mut BTreeMap<&'t [u8], u32>,
    text: &'t [u8],
    new: u32,
) -> Result<u32, NoMemory>
    ensures { IfOk result (λ number. IsFound (look seen.old) (look seen.new) text.now new number) }
{
    match seen.get(&text) {
        Some(number) => Ok(*number),
        None => {
            seen.insert(text, new)?;
            Ok(new)
        }
    }
}

// What is kept of the unit with a number. It may be the one that was looked at last.
fn here_for(units: &Units, last: Option<Here>, number: u32) -> Here
    requires { number < length (raw_units units.now) }
    ensures { (u : RawUnit) → WasHere (raw_units units.now) last → slice_get (raw_units units.now) number ≡ Some u
        → IsHere (raw_units units.now) u result }
{
    if let Some(here) = last {
        if here.number == number {
            return here;
        }
    }
    let unit = units.unit(number);
    here_of(units, number, &unit)
}

// The name of a space. `base` is the base of its unit's slots of `.debug_str_offsets`, where it has one.
fn name_of<'t>(
    units: &Units<'t>,
    sections: &InputSections<'t>,
    base: Option<u32>,
    entry: u32,
) -> &'t [u8]
    requires { entry < entries_in (raw_units units.now) }
    ensures { (s : MeaningContext ℕ) (row : EntryRow) (d : Node ℕ) (text : List ℕ) → IsOwn sections.now base s
        → slice_get (rows_of (raw_units units.now)) entry ≡ Some row → node_meaning s row.entry ≡ Ok d → Seen.space_text d ≡ Some text
        → result.now ≡ text }
{
    match space_text(units, sections, base, entry) {
        Some(text) => text,
        None => &[],
    }
}

// Appends the numbers of the names of a file's spaces. A name that is new has the number of the first space that has it.
fn put_texts<'t>(
    seen: &mut BTreeMap<&'t [u8], u32>,
    texts: &mut Vec<u32>,
    units: &Units<'t>,
    sections: &InputSections<'t>,
    spaces: &[SpaceEntry],
) -> Result<(), NoMemory>
    requires few { length texts.old.items + length spaces.now < 2 ^ 32 }
    requires entries { All (λ x. x.entry < entries_in (raw_units units.now)) spaces.now }
    ensures len { OnOk result (length texts.new.items ≡ length texts.old.items + length spaces.now) }
    ensures numbers { (names : ℕ → List ℕ) → Reads (raw_units units.now) (around sections.now (raw_units units.now)) names
        (length texts.old.items) spaces.now → HaveNumbers names texts.old.items (look seen.old)
        → OnOk result (HaveNumbers names texts.new.items (look seen.new)) }
{
    let mut last: Option<Here> = None;
    for space in spaces {
        let unit = units.entry(space.entry).unit;
        let here = here_for(units, last, unit);
        last = Some(here);
        let text = name_of(units, sections, here.offsets, space.entry);
        let new = texts.len() as u32;
        let number = number_of(seen, text, new)?;
        texts.push(number)?;
    }
    Ok(())
}

/// For each space of all files, by its number, the number of its name: equal names alone have one number. Takes n log n comparisons of
/// names, and copies none.
pub fn space_texts(alloc: Global, graph: &Graph) -> Result<Vec<u32>, NoMemory>
    ensures len { (indexes : List Index) → AreIndexes (docs_of graph.now.given) indexes
        → IfOk result (λ texts. length texts.items ≡ length (all_spaces indexes)) }
    ensures few { (indexes : List Index) → AreIndexes (docs_of graph.now.given) indexes → OnOk result (length (all_spaces indexes) ≤ 2 ^ 29) }
    ensures numbers { (indexes : List Index) → AreIndexes (docs_of graph.now.given) indexes
        → IfOk result (λ texts. NumbersTexts (rows_from 0 (all_spaces indexes)) (said_of (units_of (docs_of graph.now.given)))
        texts.items) }
{
    let indexes = graph.indexes();
    let mut seen = BTreeMap::new(alloc);
    let mut texts = Vec::new(alloc);
    for (number, file) in graph.files().iter().enumerate() {
        let spaces = indexes[number].spaces();
        put_texts(&mut seen, &mut texts, &file.units, &file.sections, spaces)?;
    }
    Ok(texts)
}
