//! Labels and targets of files and of a common file, behind each other.

ghost use Rattle.std.specs.Prelude.{◌≡◌, ℕ, ◌+◌, ◌<◌, ◌^◌, ◌++◌, Bool, List, IfOk, OnOk, length, map};
ghost use Rattle.dwz_def_reading.specs.Documents.{Doc};
ghost use Rattle.dwz_def_check.specs.CrossNames.{CrossName};
ghost use Rattle.dwz_def_taken.specs.Laws.{ArePlacedOver};
ghost use Rattle.dwz_def_tops.specs.Spots.{units_of};
ghost use Rattle.dwz_check_labels.specs.Rows.{edge, edges_from};
ghost use Rattle.dwz_label.specs.Shown.{AreShown};
ghost use Rattle.dwz_match.specs.Bare.{ShowBare};
ghost use Rattle.dwz_match.specs.Partial.{ArePartial};
ghost use Rattle.dwz_reuse.specs.Joined.{AreCommonLists};

use dwz_check_labels::CrossLabels;
use dwz_groups::{Edge, Groups, group};
use dwz_label::Labels;
use dwz_match::joined_labels;
use dwz_model::NoMemory;
use std::alloc::Global;

// Adds the numbers of a list, under a key.
fn put_list(edges: &mut Vec<Edge>, key: u32, list: &[u32]) -> Result<(), NoMemory>
    ensures { OnOk result (edges.new.items ≡ edges.old.items ++ map (edge key) list.now) }
{
    for value in list {
        edges.push(Edge { key, value: *value })?;
    }
    Ok(())
}

// Adds the lists of all keys, the first of which is that one.
fn put_lists(edges: &mut Vec<Edge>, first: usize, lists: &Groups) -> Result<(), NoMemory>
    requires { first + length lists.now < 2 ^ 32 }
    ensures { OnOk result (edges.new.items ≡ edges.old.items ++ edges_from first lists.now) }
{
    for number in 0..lists.len() {
        put_list(edges, (first + number) as u32, lists.get(number))?;
    }
    Ok(())
}

// Lists, and others behind them.
fn joined_lists(alloc: Global, own: &Groups, others: &Groups) -> Result<Groups, NoMemory>
    requires { length own.now + length others.now < 2 ^ 32 }
    ensures { IfOk result (λ lists. lists ≡ own.now ++ others.now) }
{
    let mut edges = Vec::new(alloc);
    put_lists(&mut edges, 0, own)?;
    put_lists(&mut edges, own.len(), others)?;
    let lists = group(alloc, own.len() + others.len(), edges.as_slice())?;
    Ok(lists)
}

/// The labels and targets of all tops that looks across files go over: those of the files, without languages, and behind them those of
/// a common file.
pub fn look_labels(
    alloc: Global,
    labels: &Labels,
    targets: &Groups,
    common: &CrossLabels,
) -> Result<CrossLabels, NoMemory>
    requires own { length targets.now ≡ length labels.now }
    requires common { length common.now.targets ≡ length common.now.labels }
    requires few { length labels.now + length common.now.labels < 2 ^ 32 }
    ensures many { IfOk result (λ all. length all.targets ≡ length all.labels) }
    ensures count { IfOk result (λ all. length all.labels ≡ length labels.now + length common.now.labels) }
    ensures targets { IfOk result (λ all. all.targets ≡ targets.now ++ common.now.targets) }
    ensures shows { (docs : List (Doc ℕ)) (doc : Doc ℕ) (name : ℕ → CrossName) (movable : List Bool) → ArePlacedOver docs doc
        → ArePartial doc.units → AreShown (units_of docs) labels.now movable targets.now
        → AreCommonLists doc name common.now.labels common.now.targets → IfOk result (λ all. ShowBare docs doc name all.labels all.targets) }
{
    let labels = joined_labels(alloc, labels, &common.labels)?;
    let targets = joined_lists(alloc, targets, &common.targets)?;
    Ok(CrossLabels { labels, targets })
}
