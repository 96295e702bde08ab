//! Units by their numbers among those of all files.

ghost use Rattle.std.specs.Prelude.{◌≡◌, ◌+◌, ◌<◌, ◌≤◌, ◌^◌, length};
ghost use Rattle.dwz_graph.specs.Files.{docs_of};
ghost use Rattle.dwz_graph_view.specs.EntryViews;
ghost use Rattle.dwz_graph_view.specs.Finding.{HasUnit, IsShownKind};
ghost use Rattle.dwz_graph_view.specs.UnitViews.{IsUnit, all_units};

use crate::languages::language_of;
use dwz_graph::Graph;
use dwz_model::{Place, UnitKind};
use dwz_unit::RawUnit;

/// What is shown of a unit (DWARF 5, 3.1 and 7.5.1).
#[derive(Clone, Copy, Debug, PartialEq, Eq)]
pub struct UnitView {
    /// Where its header begins.
    pub place: Place,
    pub kind: UnitKind,
    /// What its root says first as `DW_AT_language` (3.1.1), where that is a number.
    pub language: Option<i128>,
    /// Where its root begins.
    pub root: Place,
}

// A unit by its file and its number in that file.
#[derive(Clone, Copy)]
struct UnitSpot {
    file: u32,
    unit: u32,
}

/// How many units the files before the one with a number have.
pub(crate) fn units_before(graph: &Graph, file: u32) -> u32
    requires { file ≤ length graph.now.given }
    ensures { result ≡ EntryViews.units_before (docs_of graph.now.given) file }
{
    let files = graph.files();
    let mut count = 0;
    for number in 0..file {
        count += files[number as usize].units.len();
    }
    count
}

/// How many units all files have.
pub fn units(graph: &Graph) -> u32
    ensures { result ≡ length (all_units (docs_of graph.now.given)) }
{
    units_before(graph, graph.files().len() as u32)
}

// Where the unit with a number is.
fn find_unit(graph: &Graph, n: u32) -> UnitSpot
    requires { n < length (all_units (docs_of graph.now.given)) }
    ensures { HasUnit graph.now.given n result.file result.unit }
{
    let mut left = n;
    for (number, file) in graph.files().iter().enumerate() {
        let count = file.units.len();
        if left < count {
            return UnitSpot {
                file: number as u32,
                unit: left,
            };
        }
        left -= count;
    }
    unreachable!()
}

// The kind of a unit of a file.
fn kind_of(file: u32, unit: &RawUnit) -> UnitKind
    requires { unit.now.at + unit.now.type_offset < 2 ^ 32 }
    ensures { IsShownKind file unit.now result }
{
    if unit.kind == 2 {
        UnitKind::TypeUnit {
            signature: unit.signature,
            main: Place {
                file,
                offset: unit.at + unit.type_offset,
            },
        }
    } else {
        UnitKind::Compile
    }
}

/// The unit with a number, from 0: units are counted over all files, in order of file and place.
pub fn unit(graph: &Graph, n: u32) -> UnitView
    requires { n < length (all_units (docs_of graph.now.given)) }
    ensures { IsUnit (docs_of graph.now.given) n result }
{
    let UnitSpot { file, unit } = find_unit(graph, n);
    let units = &graph.files()[file as usize].units;
    let row = units.unit(unit);
    UnitView {
        place: Place {
            file,
            offset: row.at,
        },
        kind: kind_of(file, &row),
        language: language_of(units, row.first),
        root: Place {
            file,
            offset: units.entry(row.first).at,
        },
    }
}
