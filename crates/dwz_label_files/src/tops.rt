//! The labels of the tops of all files.

ghost use Rattle.std.specs.Prelude.{◌≡◌, ◌<◌, ◌≤◌, ◌^◌, IfOk, length};
ghost use Rattle.dwz_def_tops.specs.Spots.{tops_of, units_of};
ghost use Rattle.dwz_label_files.specs.Bare.{bare_labels_of};
ghost use Rattle.dwz_label_files.specs.Run.{labels_of, movable_labels};
ghost use Rattle.dwz_graph.specs.Files.{docs_of};
ghost use Rattle.dwz_label.specs.Shown.{nth_label};

use crate::run::run_of;
use crate::search::top_count;
use crate::spot::spot_of;
use crate::top::{TopScratch, put_top_of};
use crate::writer::TopLabels;
use dwz_graph::Graph;
use dwz_label::{Labels, labels_by, put_language};
use dwz_label_entries::behind;
use dwz_model::{Blob, NoMemory};
use std::alloc::Global;
use std::thread::Threads;

/// How many tops all files have.
pub fn count_tops(alloc: Global, graph: &Graph) -> usize
    ensures { result ≡ length (tops_of (units_of (docs_of graph.now.given))) }
{
    top_count(&run_of(alloc, graph))
}

/// The label of the top with a number among those of all files: bytes that are equal for two tops exactly if the languages of their units,
/// the names of the spaces that they stand in, and their bare trees are.
pub fn label(alloc: Global, graph: &Graph, top: u32) -> Result<Blob, NoMemory>
    requires { top < length (tops_of (units_of (docs_of graph.now.given))) }
    ensures { IfOk result (λ bytes. bytes ≡ nth_label (labels_of graph.now.given) top) }
{
    let run = run_of(alloc, graph);
    let spot = spot_of(&run, top);
    let mut out = Vec::new(alloc);
    let mut room = TopScratch::new(alloc);
    put_top_of(&run, spot.file, &spot.entry, &spot.row, &mut room, &mut out)?;
    Ok(Blob::new(out))
}

/// The same without the language: bytes that are equal for two tops exactly if the names of the spaces that they stand in, and their bare
/// trees are.
pub fn bare(alloc: Global, graph: &Graph, top: u32) -> Result<Blob, NoMemory>
    requires { top < length (tops_of (units_of (docs_of graph.now.given))) }
    ensures { IfOk result (λ bytes. bytes ≡ nth_label (bare_labels_of graph.now.given) top) }
{
    let label = label(alloc, graph, top)?;
    let spot = spot_of(&run_of(alloc, graph), top);
    let mut language = Vec::new(alloc);
    put_language(&mut language, spot.row.language)?;
    let bare = behind(label.as_slice(), language.len() as u128);
    Ok(Blob::new(Vec::from_slice(alloc, bare)?))
}

/// The labels of the tops of all files that may move, in order, and for each other top no bytes: where `movable` says of each top whether
/// it may move. By at most so many workers: how many there are makes no difference. There are no more tops than bytes in all files.
pub fn labels<R: Threads + Sync>(
    rt: &R,
    alloc: Global,
    graph: &Graph,
    movable: &[bool],
    workers: u32,
) -> Result<Labels, NoMemory>
    requires movable { length movable.now ≡ length (tops_of (units_of (docs_of graph.now.given))) }
    requires workers { (0 < workers) × (workers ≤ 64) }
    ensures labels { IfOk result (λ labels. labels ≡ movable_labels graph.now.given movable.now) }
    ensures len { IfOk result (λ labels. length labels ≡ length (tops_of (units_of (docs_of graph.now.given)))) }
    ensures few { IfOk result (λ labels. length labels ≤ 2 ^ 29) }
{
    let run = run_of(alloc, graph);
    let writer = TopLabels::new(&run, movable)?;
    let count = writer.len();
    labels_by(rt, alloc, workers, &writer, count)
}
