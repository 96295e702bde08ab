//! Files that are ready to be laid.
//!
//! What is known of a run (`Facts`) is made in proofs and not passed: what is answered is said with "there are facts of these files"
//! (`AreReady`). So whoever calls has contents, flags and a graph, and no plan; and what a section holds is proved without a look at how
//! files were planned.

ghost use Rattle.std.specs.Prelude.{◌≡◌, ◌<◌, ◌≤◌, ◌^◌, length, map, IfOk};
ghost use Rattle.dwz_def_reading.specs.Values.{AreBytes};
ghost use Rattle.dwz_def_reading.specs.Lists.{Each};
ghost use Rattle.dwz_graph.specs.Files.{AreKept, docs_of};
ghost use Rattle.dwz_def_output.specs.Written.{ArePrunable};
ghost use Rattle.dwz_run_files.specs.Ready.{AreReady};

use crate::common::{CommonTexts, whole_lists};
use crate::listed::list_run;
use crate::ordered::{OrderedFiles, order_run};
use crate::settled::{SettledRun, settle_run};
use crate::{prune_files, with_moved_texts};
use dwz_encode_texts::PrunedFile;
use dwz_gate::Gate;
use dwz_graph::{File, Graph};
use dwz_layout::EntryTable;
use dwz_model::NoMemory;
use dwz_plan::Scope;
use std::alloc::Global;
use std::thread::Threads;

/// Files that are ready to be laid.
#[derive(Drop)]
pub struct PreparedFiles<'u, 'a> {
    /// The files as they were read.
    pub files: &'u [File<'a>],
    /// What is settled of them.
    pub run: SettledRun<'u>,
    /// What is written of them, in order.
    pub ordered: OrderedFiles,
    /// The lists that a layout looks into: each text is where it stands after.
    pub known: EntryTable<'u, 'a>,
    /// For each file that is written and prunable what stays of its texts, and none for the others, whose texts all stay.
    pub pruned: Vec<Option<PrunedFile>>,
}

/// Files that are ready to be laid, and the texts of their common file.
#[derive(Drop)]
pub struct ReadyRun<'u, 'a> {
    /// The files.
    pub files: PreparedFiles<'u, 'a>,
    /// The sections of the common file that hold texts, if there is one.
    pub common: Option<CommonTexts>,
}

// What is in a slice of bytes is known where it is passed.
fn look_at(_bytes: &[u8])
    ensures { AreBytes _bytes.now }
{}

/// Looks at all contents. So they are known to be bytes.
pub(crate) fn look_at_all(contents: &[Vec<u8>])
    ensures { Each AreBytes (map (λ c. c.items) contents.now) }
{
    for content in contents {
        look_at(content.as_slice());
    }
}

/// Prepares files that share so: plans which of their tops move into partial units (DWARF 5, 3.1.2 and E.1), of the file or of a common
/// one (7.3.6), puts in order what is written of them, gives the common file its texts, and takes out of `.debug_str` of each prunable
/// file what isn't used any longer. `contents` is what the files were read from, and `prunes` has for each file whether it is prunable.
/// It is the same for every number of workers and every gate. The only error is that memory ran out.
pub fn prepare_files<'u, 'a, R: Threads + Sync, G: Gate>(
    rt: &R,
    alloc: Global,
    contents: &[Vec<u8>],
    graph: &'u Graph<'a>,
    prunes: &[bool],
    scope: Scope,
    workers: u32,
    gate: &G,
) -> Result<ReadyRun<'u, 'a>, NoMemory>
    requires read { graph.now.given ≡ map (λ v. v.items) contents.now }
    requires few { length graph.now.given < 2 ^ 32 }
    requires prunes { ArePrunable graph.now.given (docs_of graph.now.given) prunes.now }
    requires workers { (0 < workers) × (workers ≤ 64) }
    ensures ready { IfOk result (AreReady graph.now.given prunes.now) }
    ensures scope { IfOk result (λ r. r.files.run.settled.scope ≡ scope) }
{
    look_at_all(contents);
    let files = graph.files();
    let run = settle_run(rt, alloc, graph, scope, workers, gate)?;
    let ordered = order_run(alloc, graph, &run)?;
    let known = list_run(alloc, graph, files, &run)?;
    let importing = run.settled.importing.as_slice();
    let orders = ordered.orders.as_slice();
    let whole = whole_lists(alloc, graph, files, importing, orders, known)?;
    let pruned = prune_files(alloc, graph, &whole.known, &ordered.as_written(), prunes)?;
    let known = with_moved_texts(alloc, whole.known, &pruned)?;
    let files = PreparedFiles {
        files,
        run,
        ordered,
        known,
        pruned,
    };
    Ok(ReadyRun {
        files,
        common: whole.common,
    })
}
