//! What writes the labels of the tops of all files, each by itself.

ghost use Rattle.std.specs.Prelude.{◌≡◌, ◌<◌, ◌≤◌, ◌^◌, ◌++◌, ℕ, List, IfOk, OnOk, length};
ghost use Rattle.dwz_def_tops.specs.Spots.{tops_of, units_of};
ghost use Rattle.dwz_label_files.specs.Run.{IsRun, movable_label};
ghost use Rattle.dwz_graph.specs.Files.{docs_of};

use crate::numbered::put_numbered;
use crate::run::Run;
use crate::search::top_count;
use crate::top::TopScratch;
use crate::unit::{UnitRow, unit_rows};
use dwz_label::LabelWriter;
use dwz_model::NoMemory;
use std::marker::Model;

/// What writes the labels of the tops of all files that may move, and no bytes for the others. Clauses see what the files say, and which
/// tops may move.
#[derive(Drop)]
pub(crate) struct TopLabels<'g, 'a> {
    run: Run<'g, 'a>,
    // Of each top of all files, by its number, whether it may move.
    movable: &'g [bool],
    // Of each unit of all files, by its number.
    rows: Vec<UnitRow>,
}

impl<'g, 'a> Model for TopLabels<'g, 'a> {
    ghost use Rattle.std.specs.Prelude.{◌≡◌, length};
    ghost use Rattle.dwz_def_tops.specs.Spots.{tops_of, units_of};
    ghost use Rattle.dwz_label_files.specs.Run.{Asked, AreReady};
    ghost use Rattle.dwz_graph.specs.Files.{docs_of};

    ghost Value = { Asked };

    ghost view = { λ w. record { contents = w.run.graph.now.given; movable = w.movable.now } };

    ghost invariant = { λ w. AreReady w.run w.rows.items × (length w.movable.now ≡ length (tops_of (units_of (docs_of w.run.graph.now.given)))) };
}

impl<'g, 'a> TopLabels<'g, 'a> {
    /// What writes those of a run.
    pub(crate) fn new(run: &Run<'g, 'a>, movable: &'g [bool]) -> Result<TopLabels<'g, 'a>, NoMemory>
        requires run { IsRun run.now }
        requires movable { length movable.now ≡ length (tops_of (units_of (docs_of run.now.graph.now.given))) }
        ensures { IfOk result (λ w. w ≡ record { contents = run.now.graph.now.given; movable = movable.now }) }
    {
        let rows = unit_rows(run)?;
        Ok(TopLabels {
            run: *run,
            movable,
            rows,
        })
    }

    /// How many tops there are.
    pub(crate) fn len(&self) -> usize
        ensures count { result ≡ length (tops_of (units_of (docs_of self.now.contents))) }
        ensures few { result ≤ 2 ^ 29 }
    {
        top_count(&self.run)
    }
}

impl<'g, 'a> LabelWriter for TopLabels<'g, 'a> {
    type Scratch = TopScratch;

    ghost count = { λ w. length (tops_of (units_of (docs_of w.contents))) };

    ghost label = { λ w n. movable_label w.contents w.movable n };

    fn room(&self) -> TopScratch {
        TopScratch::new(self.run.alloc)
    }

    fn put_label(
        &self,
        room: &mut TopScratch,
        out: &mut Vec<u8>,
        n: usize,
    ) -> Result<(), NoMemory> {
        if self.movable[n] {
            put_numbered(&self.run, self.rows.as_slice(), n, room, out)?;
        }
        Ok(())
    }
}
