//! What is kept of the one file of a graph, and of its common file.

ghost use Rattle.std.specs.Prelude.{◌≡◌, ◌<◌, ℕ, List, IfOk, length};
ghost use Rattle.std.specs.Option.{option_map};
ghost use Rattle.dwz_check_labels.specs.Files.{AreHeres};
ghost use Rattle.dwz_def_cross.specs.Tops.{WithCommon};
ghost use Rattle.dwz_def_expand.specs.Chosen.{choice};
ghost use Rattle.dwz_def_expand.specs.Refusals.{Where};
ghost use Rattle.dwz_def_expand.specs.Source.{Copy};
ghost use Rattle.dwz_encode.specs.Shown.{Keys};
ghost use Rattle.dwz_expand_sources.specs.Rows.{AreCopies};
ghost use Rattle.dwz_expand_sources.specs.Sources.{AreSources, Sources};
ghost use Rattle.dwz_expand_passes.specs.Faults.{KnowsBoth, count_in};
ghost use Rattle.dwz_expand_passes.specs.Files.{IsKnownReady, Knows};
ghost use Rattle.dwz_expand_passes.specs.Paths.{IsPathsOf};
ghost use Rattle.dwz_graph.specs.Surroundings.{sources_view};
ghost use Rattle.dwz_expand_sources.specs.Imports.{same};
ghost use Rattle.dwz_expand.specs.OneKnown.{CanBeLookedUp, AreHeresBeside, AreSourceFiles, IsSourceOf, strs_beside};
ghost use Rattle.dwz_unit.specs.Rows.{units_of};

use dwz_check_labels::heres_of;
use dwz_expand_passes::{Known, SourceFile, TablePaths};
use dwz_expand_sources::Copies;
use dwz_graph::{File, Here};
use dwz_model::NoMemory;
use std::alloc::Global;

/// Of each unit of a file, and of its common file, what its values stand in.
#[derive(Drop)]
pub(crate) struct UnitHeres {
    pub own: Vec<Here>,
    pub common: Vec<Here>,
}

impl UnitHeres {
    /// Of a file, and of the common file beside which it was read, if there is one.
    pub fn of(alloc: Global, own: &File, common: Option<&File>) -> Result<UnitHeres, NoMemory>
        ensures own { IfOk result (λ heres. AreHeres (units_of own.now.units) heres.own.items) }
        ensures common { IfOk result (λ heres. AreHeresBeside (option_map (λ f. f.now) common.entry) heres.common.items) }
    {
        let own = heres_of(alloc, &own.units)?;
        let common = match common {
            None => Vec::new(alloc),
            Some(file) => heres_of(alloc, &file.units)?,
        };
        Ok(UnitHeres { own, common })
    }
}

// A file beside a common one with those texts.
fn source_file<'s, 'a>(
    file: &'s File<'a>,
    common_strs: &'a [u8],
    heres: &'s [Here],
) -> SourceFile<'s, 'a>
    requires { AreHeres (units_of file.now.units) heres.now }
    ensures { IsSourceOf file.now common_strs.now result }
{
    SourceFile {
        units: &file.units,
        sections: &file.sections,
        common_strs,
        heres,
        refs: file.resolved.refs.as_slice(),
        starts: file.resolved.starts.as_slice(),
        tables: file.resolved.tables.as_slice(),
        lines: file.resolved.lines.as_slice(),
    }
}

/// A file whose entries are copied, and the common file beside which it was read, if there is one.
#[derive(Clone, Copy)]
pub(crate) struct SourceFiles<'s, 'a> {
    pub own: SourceFile<'s, 'a>,
    pub common: Option<SourceFile<'s, 'a>>,
}

impl<'s, 'a> SourceFiles<'s, 'a> {
    /// What is kept of both, with what the values of their units stand in.
    pub fn of(
        own: &'s File<'a>,
        common: Option<&'s File<'a>>,
        heres: &'s UnitHeres,
    ) -> SourceFiles<'s, 'a>
        requires own { AreHeres (units_of own.now.units) heres.now.own.items }
        requires common { AreHeresBeside (option_map (λ f. f.now) common) heres.now.common.items }
        ensures { AreSourceFiles own.now (option_map (λ f. f.now) common.entry) result }
    {
        match common {
            None => SourceFiles {
                own: source_file(own, &[], heres.own.as_slice()),
                common: None,
            },
            Some(file) => SourceFiles {
                own: source_file(own, file.sections.strs.bytes, heres.own.as_slice()),
                common: Some(source_file(file, &[], heres.common.as_slice())),
            },
        }
    }

    /// What is known at a new unit, whose copies are at hand, with the rows of its line table by their paths.
    pub fn at_unit(
        &self,
        alloc: Global,
        copies: &'s Copies,
        unit: usize,
        paths: &'s TablePaths,
    ) -> Known<'s, 'a>
        requires ready { CanBeLookedUp self.now }
        requires copies { (x : Sources) × (starts : List ℕ) × AreCopies x starts copies.now × (copies.now.unit < length x.units) }
        requires many { length copies.now.first ≡ count_in self.now.own self.now.common }
        requires here { copies.now.unit ≡ unit }
        ensures ready { IsKnownReady result }
        ensures knows { (w : WithCommon ℕ) (keys : Keys (Copy ℕ)) (stands : Where ℕ) (x : Sources) (starts : List ℕ)
            → KnowsBoth self.now.own self.now.common w keys stands → AreSources w x → AreCopies x starts copies.now → unit < length x.units
            → IsPathsOf ((choice same w (sources_view self.now.own.sections.now)).paths unit) paths.now → Knows result w keys stands }
    {
        Known {
            alloc,
            own: self.own,
            common: self.common,
            copies,
            unit,
            paths,
        }
    }
}
