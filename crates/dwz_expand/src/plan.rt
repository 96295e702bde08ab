//! The plan of the new units of a file that was read back.

ghost use Rattle.std.specs.Prelude.{◌≡◌, IfOk};
ghost use Rattle.std.specs.Option.{option_map};
ghost use Rattle.dwz_expand.specs.OneKnown.{CanBeLookedUp, IsOneKnown};
ghost use Rattle.dwz_expand.specs.Plans.{IsPlanOf};
ghost use Rattle.dwz_expand_passes.specs.Faults.{count_in};
ghost use Rattle.dwz_graph.specs.Files.{FilesRead};

use crate::files::SourceFiles;
use dwz_expand_sources::{Copies, CopyNumbers, Sources, sources_of};
use dwz_graph::File;
use dwz_model::NoMemory;
use std::alloc::Global;

/// Which entries are the sources of each new unit, the numbers of their copies, and which copies entries stand for.
#[derive(Drop)]
pub(crate) struct Plan {
    pub sources: Sources,
    pub numbers: CopyNumbers,
    pub copies: Copies,
}

/// How many entries the file and its common one have.
pub(crate) fn entries_of(files: &SourceFiles) -> u32
    requires { CanBeLookedUp files.now }
    ensures { result ≡ count_in files.now.own files.now.common }
{
    match &files.common {
        None => files.own.units.entries(),
        Some(common) => files.own.units.entries() + common.units.entries(),
    }
}

impl Plan {
    /// Of the one file of a graph, and of the common file beside which it was read, if there is one. No unit is at hand yet.
    pub fn of(
        alloc: Global,
        own: &File,
        common: Option<&File>,
        files: &SourceFiles,
    ) -> Result<Plan, NoMemory>
        requires known { (r : FilesRead) × IsOneKnown r own.now (option_map (λ f. f.now) common) files.now }
        ensures { (r : FilesRead) (k : IsOneKnown r own.now (option_map (λ f. f.now) common.entry) files.now)
            → IfOk result (IsPlanOf files.now k.w) }
    {
        let sources = sources_of(alloc, own, common)?;
        let numbers = CopyNumbers::of(alloc, &sources)?;
        let entries = entries_of(files) as usize;
        let copies = Copies::of(alloc, &sources, &numbers, entries)?;
        Ok(Plan {
            sources,
            numbers,
            copies,
        })
    }
}
