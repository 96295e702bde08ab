//! Why two tops aren't shared.

ghost use Rattle.std.specs.Prelude.{◌≡◌, ◌-◌, ◌<◌, ◌≤◌, ◌^◌, All, IfOk, IfSome, List, None, length};
ghost use Rattle.dwz_def_explain.specs.Explained.{IsExplained};
ghost use Rattle.dwz_def_reading.specs.Lists.{In};
ghost use Rattle.dwz_def_tops.specs.Alike.{Alike, Movable};
ghost use Rattle.dwz_def_tops.specs.Spots.{EntryName, FileUnit, Top, tops_of, units_of};
ghost use Rattle.dwz_explain.specs.Verdicts.{HaveFewTargets, LabelEnds, LeadsApart, TellsDifference};
ghost use Rattle.dwz_graph.specs.Files.{docs_of};
ghost use Rattle.dwz_label.specs.Labels.{label_of};
ghost use Rattle.dwz_label.specs.Shown.{AreShown, nth_label};
ghost use Rattle.dwz_label_differences.specs.Told.{IsShort};
ghost use Rattle.dwz_label_files.specs.LeastLaws.{flags_of};
ghost use Rattle.dwz_move_files.specs.Outlines.{IsOutline};

use dwz_def_explain::Verdict;
use dwz_graph::Graph;
use dwz_groups::{Groups, Tops};
use dwz_label::{Labels, firsts, nodes};
use dwz_label_differences::what_differs;
use dwz_label_files::labels;
use dwz_model::{NoMemory, Numbers};
use dwz_nodes_chains::{Difference, find_chain};
use std::alloc::Global;
use std::thread::Threads;

// Tops of files that are kept are short, and have few references.
fn look_at_tops(graph: &Graph)
    ensures short { (t : Top) → In t (tops_of (units_of (docs_of graph.now.given))) → IsShort t }
    ensures few { HaveFewTargets (units_of (docs_of graph.now.given)) }
{
    let _files = graph.files();
}

// Of each top whether it may move.
fn movable_of(alloc: Global, tops: &Tops) -> Result<Vec<bool>, NoMemory>
    ensures { IfOk result (λ flags. flags.items ≡ flags_of tops.now) }
{
    let rows = tops.rows.as_slice();
    rows.iter().map(|row| row.movable).collect(alloc)
}

// The same numbers, which 32 bits hold.
fn narrowed(alloc: Global, chain: &[usize]) -> Result<Numbers, NoMemory>
    requires { All (λ n. n < 2 ^ 32) chain.now }
    ensures { IfOk result (λ numbers. numbers ≡ chain.now) }
{
    let mut numbers = Vec::with_capacity(alloc, chain.len())?;
    for number in chain {
        numbers.push(*number as u32)?;
    }
    Ok(Numbers::new(numbers))
}

// What is said of two tops where a chain leads from them to two that differ by themselves, whose labels are kept.
fn verdict_at(alloc: Global, labels: &Labels, apart: &Difference) -> Result<Verdict, NoMemory>
    requires first { apart.now.first < length labels.now }
    requires second { apart.now.second < length labels.now }
    requires ends { LabelEnds labels.now apart.now }
    ensures { (c d : Top) → nth_label labels.now apart.now.first ≡ label_of c → nth_label labels.now apart.now.second ≡ label_of d
        → IsShort c → IfOk result (TellsDifference c d apart.now.chain.items) }
{
    let first = labels.get(apart.first as usize);
    let second = labels.get(apart.second as usize);
    match what_differs(alloc, first, second)? {
        None => unreachable!(),
        Some(what) => {
            let chain = narrowed(alloc, apart.chain.as_slice())?;
            Ok(Verdict::Differ { chain, what })
        }
    }
}

// The least chain that leads from two tops to two that differ by themselves, or None where they are alike: from the labels of tops,
// whether they may move, and the tops that their references go into.
fn chain_of(
    alloc: Global,
    labels: &Labels,
    targets: &Groups,
    movable: &[bool],
    a: u32,
    b: u32,
) -> Result<Option<Difference>, NoMemory>
    requires movable { length movable.now ≡ length labels.now }
    requires targets { length targets.now ≡ length labels.now }
    requires few { length labels.now < 2 ^ 32 - 1 }
    requires inside { All (λ ts. All (λ t. t < length targets.now) ts) targets.now }
    requires first { a < length movable.now }
    requires second { b < length movable.now }
    ensures alike { (units : List (FileUnit EntryName)) (x y : Top) → AreShown units labels.now movable.now targets.now
        → In x (tops_of units) → In y (tops_of units) → Movable units x.number → Movable units y.number → x.number ≡ a → y.number ≡ b
        → IfOk result (λ found. found ≡ None → Alike units x.number y.number) }
    ensures apart { (units : List (FileUnit EntryName)) (x y : Top) → AreShown units labels.now movable.now targets.now
        → In x (tops_of units) → In y (tops_of units) → Movable units x.number → Movable units y.number → x.number ≡ a → y.number ≡ b
        → IfOk result (λ found. IfSome found (LeadsApart units x y)) }
    ensures inside { IfOk result (λ found. IfSome found (λ apart. (apart.first < length labels.now) × (apart.second < length labels.now))) }
    ensures narrow { (units : List (FileUnit EntryName)) → AreShown units labels.now movable.now targets.now → HaveFewTargets units
        → IfOk result (λ found. IfSome found (λ apart. All (λ n. n < 2 ^ 32) apart.chain.items)) }
{
    let firsts = firsts(alloc, labels, movable)?;
    let nodes = nodes(alloc, firsts.as_slice(), movable, targets)?;
    let found = find_chain(alloc, &nodes, a, b)?;
    Ok(found)
}

/// Why two tops that may move aren't alike: the least chain of references that leads from them to two tops that differ by themselves, and
/// what differs there; or that they are alike. The tops are `a` and `b`, by their numbers among those of all files, whose outline is
/// `tops`. It is the same for every number of workers. The only error is that memory ran out.
pub fn explain<R: Threads + Sync>(
    rt: &R,
    alloc: Global,
    graph: &Graph,
    tops: &Tops,
    workers: u32,
    a: u32,
    b: u32,
) -> Result<Verdict, NoMemory>
    requires tops { IsOutline (docs_of graph.now.given) tops.now }
    requires workers { (0 < workers) × (workers ≤ 64) }
    requires first { Movable (units_of (docs_of graph.now.given)) a }
    requires second { Movable (units_of (docs_of graph.now.given)) b }
    ensures { (x y : Top) → In x (tops_of (units_of (docs_of graph.now.given))) → In y (tops_of (units_of (docs_of graph.now.given))) → x.number ≡ a
        → y.number ≡ b → IfOk result (IsExplained (units_of (docs_of graph.now.given)) x y) }
{
    look_at_tops(graph);
    let movable = movable_of(alloc, tops)?;
    let flags = movable.as_slice();
    let labels = labels(rt, alloc, graph, flags, workers)?;
    match chain_of(alloc, &labels, &tops.targets, flags, a, b)? {
        None => Ok(Verdict::Alike),
        Some(apart) => verdict_at(alloc, &labels, &apart),
    }
}
