//! What is new in files over a common file that stands.

ghost use Rattle.std.specs.Prelude.{◌≡◌, ◌+◌, ◌<◌, ◌≤◌, ◌^◌, List, None, Some, length, map, IfOk};
ghost use Rattle.dwz_def_reading.specs.Lists.{Each};
ghost use Rattle.dwz_def_reading.specs.Values.{AreBytes};
ghost use Rattle.dwz_graph.specs.declared.file.File.{File as FileOfCode};
ghost use Rattle.dwz_graph.specs.Files.{AreKept, HasCommon};
ghost use Rattle.dwz_def_over.specs.Over.{OverFiles, run_over, stands};
ghost use Rattle.dwz_def_output.specs.NewFiles.{AreNewBy};
ghost use Rattle.dwz_run_files.specs.Over.{IsOver};
ghost use Rattle.dwz_run_files.specs.ReadyOver.{AreOverStanding, AreReadyOver};

use crate::listed::list_over;
use crate::made::{NewSectionsOfRun, lay_over};
use crate::ordered::order_over;
use crate::prepared::look_at_all;
use crate::settled::settle_over;
use crate::standing::{StandingCommon, standing_common};
use crate::{PreparedFiles, prune_files, with_moved_texts};
use dwz_def_taken::Fixed;
use dwz_encode_common::{StandingTexts, with_standing};
use dwz_gate::Gate;
use dwz_graph::{File, Graph, placed_laws};
use dwz_model::NoMemory;
use std::alloc::Global;
use std::thread::Threads;

// Prepares files over a common file that stands, as `prepare_files` does others.
fn prepare_over<'u, 'a, R: Threads + Sync, G: Gate>(
    rt: &R,
    alloc: Global,
    graph: &'u Graph<'a>,
    prunes: &[bool],
    standing: &StandingCommon,
    workers: u32,
    gate: &G,
) -> Result<PreparedFiles<'u, 'a>, NoMemory>
    requires few { length graph.now.given < 2 ^ 32 }
    requires workers { (0 < workers) × (workers ≤ 64) }
    requires standing { (x : OverFiles) × AreOverStanding graph.now prunes.now standing.now x }
    ensures { (x : OverFiles) → AreOverStanding graph.now prunes.now standing.now x → IfOk result (AreReadyOver x graph.now.given) }
{
    let files = graph.files();
    let common = standing.common;
    let run = settle_over(rt, alloc, graph, standing, workers, gate)?;
    let ordered = order_over(alloc, graph, &run, common.units.len())?;
    let known = list_over(alloc, graph, files, &run, standing)?;
    let texts = StandingTexts::read(alloc, common.sections.strs.bytes)?;
    let importing = run.settled.importing.as_slice();
    let known = with_standing(alloc, files, known, &texts, importing)?;
    let pruned = prune_files(alloc, graph, &known, &ordered.as_written(), prunes)?;
    let known = with_moved_texts(alloc, known, &pruned)?;
    Ok(PreparedFiles {
        files,
        run,
        ordered,
        known,
        pruned,
    })
}

// What is new in the files of a graph over its common file.
fn new_over<R: Threads + Sync, G: Gate>(
    rt: &R,
    alloc: Global,
    graph: &Graph,
    common: &File,
    prunes: &[bool],
    fixed: &Fixed,
    workers: u32,
    gate: &G,
) -> Result<NewSectionsOfRun, NoMemory>
    requires few { length graph.now.given < 2 ^ 32 }
    requires bytes { Each AreBytes graph.now.given }
    requires kept { (files : List FileOfCode) × AreKept graph.now.given files }
    requires common { HasCommon (length graph.now.given + length graph.now.back) graph.now.common (Some common.now) }
    requires workers { (0 < workers) × (workers ≤ 64) }
    requires taken { (x : OverFiles) × IsOver graph.now prunes.now fixed.now x }
    ensures { (x : OverFiles) → IsOver graph.now prunes.now fixed.now x
        → IfOk result (λ new. (new.common ≡ None) × AreNewBy (stands x) (run_over x) new.files.items new.partials) }
{
    placed_laws();
    let standing = standing_common(alloc, graph, common, fixed)?;
    let prepared = prepare_over(rt, alloc, graph, prunes, &standing, workers, gate)?;
    let files = lay_over(rt, alloc, &prepared, &standing, workers)?;
    let partials = prepared.run.settled.planned.plan.partials().len() as u32;
    Ok(NewSectionsOfRun {
        common: None,
        files,
        partials,
    })
}

/// What is new in files over a common file that stands (DWARF 5, 7.3.6) and was read beside them, from which `fixed` says what is taken: that
/// is imported from it, tops that are left move into partial units of their file, where that makes it smaller, and a file that imports from
/// the common one names its texts where they stand. Nothing of that file is written. All else is as `make_files` has it.
///
/// The only error is that memory ran out, or more numbers were needed than 32 bits have.
pub fn make_over<R: Threads + Sync, G: Gate>(
    rt: &R,
    alloc: Global,
    contents: &[Vec<u8>],
    graph: &Graph,
    prunes: &[bool],
    fixed: &Fixed,
    workers: u32,
    gate: &G,
) -> Result<NewSectionsOfRun, NoMemory>
    requires read { graph.now.given ≡ map (λ v. v.items) contents.now }
    requires few { length graph.now.given < 2 ^ 32 }
    requires workers { (0 < workers) × (workers ≤ 64) }
    requires taken { (x : OverFiles) × IsOver graph.now prunes.now fixed.now x }
    ensures { (x : OverFiles) → IsOver graph.now prunes.now fixed.now x
        → IfOk result (λ new. (new.common ≡ None) × AreNewBy (stands x) (run_over x) new.files.items new.partials) }
{
    look_at_all(contents);
    graph.files();
    match graph.common() {
        Some(common) => new_over(rt, alloc, graph, common, prunes, fixed, workers, gate),
        None => unreachable!(),
    }
}
