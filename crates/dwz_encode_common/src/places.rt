//! Where the entries of the lists of a layout are read.

ghost use Rattle.std.specs.Prelude.{◌≡◌, map};
ghost use Rattle.dwz_encode_common.specs.Stored.{file_bases};
ghost use Rattle.dwz_encode_common.specs.Steps.{HasPlace};

use dwz_graph::{Graph, InputSections};
use dwz_layout::{EntryTable, Row};
use dwz_unit::Units;

/// An entry, by its number in its file: the sections of the file, its units, and for each unit the base of its slots.
#[derive(Clone, Copy)]
pub(crate) struct Place<'p, 'a> {
    pub(crate) sections: &'p InputSections<'a>,
    pub(crate) units: &'p Units<'a>,
    pub(crate) bases: &'p [Option<u32>],
    pub(crate) entry: u32,
}

/// Where an entry is read, if it is there.
pub(crate) fn place_of<'p, 'a>(
    graph: &'p Graph<'a>,
    known: &'p EntryTable<'p, 'a>,
    bases: &'p [Vec<Option<u32>>],
    row: Row,
) -> Option<Place<'p, 'a>>
    requires { map (λ b. b.items) bases.now ≡ map file_bases known.now.files.items }
    ensures { HasPlace graph.now.given known.now row result }
{
    let Some(file) = graph.files().get(row.file as usize) else {
        return None;
    };
    let Some(rows) = known.files.get(row.file as usize) else {
        return None;
    };
    if row.entry >= rows.units.entries() {
        return None;
    }
    Some(Place {
        sections: &file.sections,
        units: rows.units,
        bases: bases[row.file as usize].as_slice(),
        entry: row.entry,
    })
}
