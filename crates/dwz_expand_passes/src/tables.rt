//! The line tables of new units.

ghost use Rattle.std.specs.Prelude.{IfOk, OnOk};
ghost use Rattle.dwz_def_expand.specs.Chosen.{paths_at};
ghost use Rattle.dwz_expand_passes.specs.Tables.{IsTableOf};
ghost use Rattle.dwz_expand_passes.specs.Paths.{IsPathsOf};
ghost use Rattle.dwz_graph.specs.Resolved.{sources_view};

use crate::paths::TablePaths;
use dwz_graph::InputSections;
use dwz_model::NoMemory;
use std::alloc::Global;

/// The rows of the line table that was read last, and where it stands, if there is one.
#[derive(Drop)]
pub(crate) struct LastTable {
    place: Option<u32>,
    pub(crate) paths: TablePaths,
}

impl LastTable {
    /// Those of a unit without a line table.
    pub(crate) fn none(alloc: Global, sections: &InputSections) -> Result<LastTable, NoMemory>
        ensures { IfOk result (λ t. IsTableOf sections.now t) }
    {
        Ok(LastTable {
            place: None,
            paths: TablePaths::read(alloc, sections, None)?,
        })
    }

    /// Goes to the table at a place, if there is one, and reads it unless it is the last one: units of one table mostly stand together.
    pub(crate) fn go_to(
        &mut self,
        alloc: Global,
        sections: &InputSections,
        place: Option<u32>,
    ) -> Result<(), NoMemory>
        requires { IsTableOf sections.now self.old }
        ensures table { OnOk result (IsTableOf sections.now self.new) }
        ensures paths { OnOk result (IsPathsOf (paths_at (sources_view sections.now) place) self.new.paths) }
    {
        if self.place != place {
            self.paths = TablePaths::read(alloc, sections, place)?;
            self.place = place;
        }
        Ok(())
    }
}
