//! A common file that stands beside files (DWARF 5, 7.3.6).

ghost use Rattle.std.specs.Prelude.{◌≡◌, ℕ, ◌<◌, ◌≤◌, ◌^◌, List, length, Ok, IfOk};
ghost use Rattle.dwz_def_reading.specs.Documents.{Doc};
ghost use Rattle.dwz_def_reading.specs.Meanings.{Around};
ghost use Rattle.dwz_def_reading.specs.Meant.{units_meaning};
ghost use Rattle.dwz_def_reading.specs.Units.{entries_in};
ghost use Rattle.dwz_def_taken.specs.Beside.{own_tops, reused_of};
ghost use Rattle.dwz_unit.specs.Rows.{units_of};
ghost use Rattle.dwz_graph.specs.declared.file.File.{File as FileOfCode};
ghost use Rattle.dwz_graph.specs.Files.{AreKept, docs_of};
ghost use Rattle.dwz_check_index.specs.Both.{from_top};
ghost use Rattle.dwz_check_index.specs.Index.{IsCrossIndex};

use dwz_check_index::{CrossIndex, CrossStarts};
use dwz_def_taken::Fixed;
use dwz_graph::{File, Graph};
use dwz_layout_numbers::tops;
use dwz_model::NoMemory;
use std::alloc::Global;

/// A common file that stands, what its entries are, and what is taken from it.
#[derive(Drop)]
pub struct StandingCommon<'b, 'a> {
    /// The file, as it was read.
    pub common: &'b File<'a>,
    /// What its entries are. Its tops have the numbers behind those of the files.
    pub index: CrossIndex,
    /// What is taken from it.
    pub fixed: &'b Fixed,
}

/// The common file that stands beside the files of a graph, of which this is taken, with what its entries are.
pub(crate) fn standing_common<'b, 'a>(
    alloc: Global,
    graph: &Graph,
    common: &'b File<'a>,
    fixed: &'b Fixed,
) -> Result<StandingCommon<'b, 'a>, NoMemory>
    requires few { length graph.now.given < 2 ^ 32 }
    requires kept { (files : List FileOfCode) × AreKept graph.now.given files }
    requires room { entries_in (units_of common.now.units) ≤ 2 ^ 28 }
    ensures common { IfOk result (λ b. b.common.now ≡ common.now) }
    ensures fixed { IfOk result (λ b. b.fixed.now ≡ fixed.now) }
    ensures len { IfOk result (λ b. length b.index.steps ≤ 2 ^ 28) }
    ensures index { (around : Around ℕ) (doc : Doc ℕ) → units_meaning around (units_of common.now.units) ≡ Ok doc.units
        → IfOk result (λ b. IsCrossIndex (from_top (own_tops (reused_of (docs_of graph.now.given) doc))) doc.units b.index) }
{
    let tops = tops(alloc, graph.indexes())?;
    let starts = CrossStarts {
        top: tops.len() as u32,
        lone: 0,
    };
    let index = CrossIndex::read(alloc, &common.units, &starts)?;
    Ok(StandingCommon {
        common,
        index,
        fixed,
    })
}
