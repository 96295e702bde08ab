//! The tops of files and of a common file that stands behind them.

ghost use Rattle.std.specs.Prelude.{◌≡◌, ℕ, ◌+◌, ◌∷◌, ◌++◌, ◌<◌, ◌^◌, [], All, List, length, map, IfOk, OnOk};
ghost use Rattle.dwz_def_reading.specs.Documents.{Doc};
ghost use Rattle.dwz_def_taken.specs.Beside.{compile_doc};
ghost use Rattle.dwz_graph.specs.Indexed.{AreIndexes};
ghost use Rattle.dwz_graph.specs.EntryCounts.{entry_count};
ghost use Rattle.dwz_graph.specs.AllNames.{AreTopEntries};
ghost use Rattle.dwz_layout_numbers.specs.Whole.{AreWhole};
ghost use Rattle.dwz_layout_input.specs.Over.{IsBehind, tops_behind};

use dwz_check_index::{CrossIndex, TopEntry};
use dwz_graph::Index;
use dwz_layout_numbers::tops;
use dwz_model::NoMemory;
use std::alloc::Global;

// How many entries all files have.
fn count_entries(indexes: &[Index]) -> u32
    requires { entry_count indexes.now < 2 ^ 32 }
    ensures { result ≡ entry_count indexes.now }
{
    let mut count = 0;
    for index in indexes {
        count += index.len();
    }
    count
}

// Adds the numbers of a common file's tops, whose first entry has that number.
fn add_tops(tops: &mut Vec<u32>, start: u32, entries: &[TopEntry]) -> Result<(), NoMemory>
    requires { All (λ t. start + t.entry < 2 ^ 32) entries.now }
    ensures { OnOk result (tops.new.items ≡ tops.old.items ++ map (λ t. start + t.entry) entries.now) }
{
    for top in entries {
        tops.push(start + top.entry)?;
    }
    Ok(())
}

/// For each top the number of its entry among those of all files, and of a common file that stands behind them.
pub fn tops_over(
    alloc: Global,
    indexes: &[Index],
    common: &CrossIndex,
) -> Result<Vec<u32>, NoMemory>
    requires few { entry_count indexes.now + length common.now.steps < 2 ^ 32 }
    requires inside { All (λ x. All (λ t. t.entry < length x.steps) x.tops) indexes.now }
    requires inside_behind { All (λ t. t.entry < length common.now.steps) common.now.tops }
    ensures tops { IfOk result (λ tops. tops.items ≡ tops_behind indexes.now common.now) }
    ensures are { (docs : List (Doc ℕ)) (doc : Doc ℕ) → AreIndexes docs indexes.now → AreWhole docs → IsBehind docs doc common.now
        → IfOk result (λ tops. AreTopEntries (docs ++ compile_doc doc ∷ []) tops.items) }
{
    let mut tops = tops(alloc, indexes)?;
    let start = count_entries(indexes);
    add_tops(&mut tops, start, common.tops())?;
    Ok(tops)
}
