//! What is settled of planned files.

ghost use Rattle.std.specs.Prelude.{◌≡◌, ℕ, ◌+◌, ◌<◌, ◌^◌, List, length, map, IfOk};
ghost use Rattle.dwz_def_reading.specs.Documents.{Doc};
ghost use Rattle.dwz_def_tops.specs.Spots.{file_numbers};
ghost use Rattle.dwz_def_readback.specs.Files.{imports_common};
ghost use Rattle.dwz_def_taken.specs.declared.fixed.Fixed.{Fixed};
ghost use Rattle.dwz_layout_input.specs.PlannedOver.{ArePlannedOver};
ghost use Rattle.dwz_law_layout.specs.Beside.{Alone, Over, Standing};
ghost use Rattle.dwz_law_layout.specs.Facts.{RunFacts, docs, move, units};
ghost use Rattle.dwz_graph.specs.Files.{docs_of};
ghost use Rattle.dwz_graph.specs.Index.{Index};
ghost use Rattle.dwz_graph.specs.Indexed.{AreIndexes};
ghost use Rattle.dwz_layout_order.specs.declared.orders.Settled.{Settled as Lent};
ghost use Rattle.dwz_layout_order.specs.Ordered.{AreSettled};
ghost use Rattle.dwz_law_layout.specs.Settled.{IsSettled};
ghost use Rattle.dwz_layout_input.specs.Parts.{AreParts};
ghost use Rattle.dwz_layout_input.specs.Settled.{AreFactsOf, ArePlanned, Lends};
ghost use Rattle.dwz_layout_input.specs.SettledOver.{AreFactsOver};

use crate::{PlannedFiles, Spaces, part_lines, pinned_spaces, spaces_of_files};
use dwz_graph::Graph;
use dwz_layout_order::{Marks, Settled, TopMark, changed_files, importing_files, marks_of};
use dwz_model::NoMemory;
use dwz_plan::Scope;
use std::alloc::Global;

/// What is settled of files before their units are written.
#[derive(Drop)]
pub struct SettledFiles {
    /// Which files share.
    pub scope: Scope,
    /// The tops of all files, and their plan.
    pub planned: PlannedFiles,
    /// Of each top whether it stays in its unit, and whether it is pinned.
    pub marks: Vec<TopMark>,
    /// Of each space whether it is pinned.
    pub pinned: Vec<bool>,
    /// The spaces of all files, and those that tops stand in.
    pub spaces: Spaces,
    /// For each partial unit the offset of the line table that its root names, if it names one (DWARF 5, 3.1.1).
    pub lines: Vec<Option<u32>>,
    /// For each file whether something of it moves. Those files are written.
    pub written: Vec<bool>,
    /// For each file whether it imports from the common file (3.2.5).
    pub importing: Vec<bool>,
}

impl SettledFiles {
    /// What is settled, borrowed.
    pub fn as_settled(&self) -> Settled<'_>
        ensures { Lends self.now result }
    {
        let marks = Marks {
            tops: self.marks.as_slice(),
            spaces: self.pinned.as_slice(),
        };
        Settled {
            plan: &self.planned.plan,
            marks,
            rows: self.spaces.rows.as_slice(),
            of_tops: self.spaces.of_tops.as_slice(),
            lines: self.lines.as_slice(),
            files: self.written.as_slice(),
        }
    }
}

// All that is settled of files by their plan. Behind their tops may stand others.
fn settle(
    alloc: Global,
    graph: &Graph,
    scope: Scope,
    planned: PlannedFiles,
) -> Result<SettledFiles, NoMemory>
    requires few { length graph.now.given < 2 ^ 32 }
    requires few_rows { length planned.tops.rows < 2 ^ 32 }
    requires homes { length planned.plan.homes ≡ length planned.tops.rows }
    ensures scope { IfOk result (λ r. r.scope ≡ scope) }
    ensures planned { IfOk result (λ r. r.planned ≡ planned) }
    ensures parts { (indexes : List Index) → AreIndexes (docs_of graph.now.given) indexes
        → IfOk result (λ r. AreParts graph.now.given indexes planned r) }
{
    let files = graph.files().len() as u32;
    let tops = &planned.tops;
    let plan = &planned.plan;
    let marks = marks_of(alloc, tops, plan)?;
    let pinned = pinned_spaces(alloc, graph)?;
    let spaces = spaces_of_files(alloc, graph)?;
    let lines = part_lines(alloc, graph, tops, plan)?;
    let written = changed_files(alloc, tops, plan, files)?;
    let importing = importing_files(alloc, tops, plan, files)?;
    Ok(SettledFiles {
        scope,
        planned,
        marks,
        pinned,
        spaces,
        lines,
        written,
        importing,
    })
}

/// All that is settled of files that share so, by their plan: which tops and spaces stay, the spaces of all files, the line tables of
/// partial units, which files are written, and which of them import from the common file.
pub fn settle_files(
    alloc: Global,
    graph: &Graph,
    scope: Scope,
    planned: PlannedFiles,
) -> Result<SettledFiles, NoMemory>
    requires few { length graph.now.given < 2 ^ 32 }
    requires planned { ArePlanned scope (docs_of graph.now.given) planned }
    ensures scope { IfOk result (λ r. r.scope ≡ scope) }
    ensures planned { IfOk result (λ r. r.planned ≡ planned) }
    ensures settled { (indexes : List Index) → AreIndexes (docs_of graph.now.given) indexes
        → IfOk result (λ r. (f : RunFacts Alone) (s : Lent) → AreFactsOf graph.now.given indexes scope planned f → Lends r s → IsSettled f s) }
    ensures importing { (indexes : List Index) → AreIndexes (docs_of graph.now.given) indexes
        → IfOk result (λ r. (f : RunFacts Alone) → AreFactsOf graph.now.given indexes scope planned f
        → r.importing.items ≡ map (imports_common (move f) (units f)) (file_numbers 0 (docs f))) }
    ensures fits { IfOk result (λ r. (s : Lent) → Lends r s → AreSettled (length graph.now.given + 1) s) }
{
    // What these say is known of the files that are planned.
    let _files = graph.files();
    settle(alloc, graph, scope, planned)
}

/// The same of files over a common file that stands, each of which is by itself: of partial units the line tables of those that are made.
pub fn settle_files_over(
    alloc: Global,
    graph: &Graph,
    planned: PlannedFiles,
) -> Result<SettledFiles, NoMemory>
    requires few { length graph.now.given < 2 ^ 32 }
    requires planned { (common : Doc ℕ) × (fixed : Fixed) × ArePlannedOver (docs_of graph.now.given) common fixed planned }
    ensures scope { IfOk result (λ r. r.scope ≡ Scope.Each) }
    ensures planned { IfOk result (λ r. r.planned ≡ planned) }
    ensures settled { (indexes : List Index) → AreIndexes (docs_of graph.now.given) indexes
        → IfOk result (λ r. (s : Standing) (f : RunFacts (Over s)) (t : Lent) → AreFactsOver graph.now.given indexes planned s f → Lends r t
        → IsSettled f t) }
    ensures importing { (indexes : List Index) → AreIndexes (docs_of graph.now.given) indexes
        → IfOk result (λ r. (s : Standing) (f : RunFacts (Over s)) → AreFactsOver graph.now.given indexes planned s f
        → r.importing.items ≡ map (imports_common (move f) (units f)) (file_numbers 0 (docs f))) }
    ensures fits { IfOk result (λ r. (s : Lent) → Lends r s → AreSettled (length graph.now.given) s) }
{
    let _files = graph.files();
    settle(alloc, graph, Scope::Each, planned)
}
