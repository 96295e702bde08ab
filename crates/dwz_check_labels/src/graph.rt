//! The labels of the two files of a graph and of their common one.

ghost use Rattle.std.specs.Prelude.{◌≡◌, IfOk, None, Some, length};
ghost use Rattle.std.specs.Option.{option_map};
ghost use Rattle.dwz_check_labels.specs.Files.{AreHeres};
ghost use Rattle.dwz_check_labels.specs.FilesSaid.{AreFilesSaid, AreLabelsFor, with_index};
ghost use Rattle.dwz_check_labels.specs.Graph.{AreIndexesOf, AreLabelsOf};
ghost use Rattle.dwz_unit.specs.Rows.{units_of};

use crate::both::{CrossLabels, labels_of_sources};
use crate::heres::{Heres, heres_alone, heres_beside};
use crate::named_file::NamedFile;
use crate::source::Source;
use dwz_check_index::{CrossIndex, CrossIndexes, CrossStarts};
use dwz_graph::{File, Graph, Here, placed_laws};
use dwz_model::NoMemory;
use std::alloc::Global;

/// A file with its names, beside a common one with those texts.
pub(crate) fn named_file<'s, 'a>(
    file: &'s File<'a>,
    common_strs: &'a [u8],
    index: &'s CrossIndex,
    heres: &'s [Here],
) -> NamedFile<'s, 'a>
    ensures units { result.units.now ≡ file.now.units }
    ensures sections { result.sections.now ≡ file.now.sections }
    ensures strs { result.common_strs.now ≡ common_strs.now }
    ensures index { result.index.now ≡ index.now }
    ensures heres { result.heres.now ≡ heres.now }
{
    NamedFile {
        units: &file.units,
        sections: &file.sections,
        common_strs,
        index,
        heres,
    }
}

/// What its labels are written from.
pub(crate) fn source_of<'s, 'a>(
    alloc: Global,
    file: &'s File<'a>,
    own: NamedFile<'s, 'a>,
    common: Option<NamedFile<'s, 'a>>,
) -> Source<'s, 'a>
    ensures own { result.own ≡ own.entry }
    ensures common { result.common ≡ common.entry }
    ensures refs { result.refs.now ≡ file.now.resolved.refs.items }
    ensures starts { result.starts.now ≡ file.now.resolved.starts.items }
    ensures tables { result.tables.now ≡ file.now.resolved.tables.items }
    ensures lines { result.lines.now ≡ file.now.resolved.lines.items }
{
    Source {
        alloc,
        own,
        common,
        refs: file.resolved.refs.as_slice(),
        starts: file.resolved.starts.as_slice(),
        tables: file.resolved.tables.as_slice(),
        lines: file.resolved.lines.as_slice(),
    }
}

// Of files without a common one.
fn labels_alone<'s, 'a>(
    alloc: Global,
    old: &'s File<'a>,
    new: &'s File<'a>,
    indexes: &'s CrossIndexes,
    heres: &'s Heres,
) -> Result<CrossLabels, NoMemory>
    requires said { AreFilesSaid old.now new.now None indexes.now }
    requires old_heres { AreHeres (units_of old.now.units) heres.now.old.items }
    requires new_heres { AreHeres (units_of new.now.units) heres.now.new.items }
    ensures many { IfOk result (λ x. length x.targets ≡ length x.labels) }
    ensures labels { IfOk result (λ x. AreLabelsFor old.now new.now None indexes.now x.labels x.targets) }
{
    let first = named_file(old, &[], &indexes.old, heres.old.as_slice());
    let second = named_file(new, &[], &indexes.new, heres.new.as_slice());
    let before = source_of(alloc, old, first, None);
    let after = source_of(alloc, new, second, None);
    labels_of_sources(&before, &after, &None)
}

// Of files beside a common one, which has that index.
fn labels_with<'s, 'a>(
    alloc: Global,
    old: &'s File<'a>,
    new: &'s File<'a>,
    common: &'s File<'a>,
    indexes: &'s CrossIndexes,
    index: &'s CrossIndex,
    heres: &'s Heres,
) -> Result<CrossLabels, NoMemory>
    requires said { AreFilesSaid old.now new.now (Some common.now) (with_index indexes.now index.now) }
    requires old_heres { AreHeres (units_of old.now.units) heres.now.old.items }
    requires new_heres { AreHeres (units_of new.now.units) heres.now.new.items }
    requires heres { AreHeres (units_of common.now.units) heres.now.common.items }
    ensures many { IfOk result (λ x. length x.targets ≡ length x.labels) }
    ensures labels { IfOk result (λ x. AreLabelsFor old.now new.now (Some common.now) (with_index indexes.now index.now) x.labels x.targets) }
{
    let strs = common.sections.strs.bytes;
    let first = named_file(old, strs, &indexes.old, heres.old.as_slice());
    let second = named_file(new, strs, &indexes.new, heres.new.as_slice());
    let third = named_file(common, &[], index, heres.common.as_slice());
    let before = source_of(alloc, old, first, Some(third));
    let after = source_of(alloc, new, second, Some(third));
    let shared = Some(source_of(alloc, common, third, None));
    labels_of_sources(&before, &after, &shared)
}

// The same, where it isn't known yet what values stand in.
fn labels_beside<'s, 'a>(
    alloc: Global,
    old: &'s File<'a>,
    new: &'s File<'a>,
    common: &'s File<'a>,
    indexes: &'s CrossIndexes,
    index: &'s CrossIndex,
) -> Result<CrossLabels, NoMemory>
    requires { AreFilesSaid old.now new.now (Some common.now) (with_index indexes.now index.now) }
    ensures many { IfOk result (λ x. length x.targets ≡ length x.labels) }
    ensures labels { IfOk result (λ x. AreLabelsFor old.now new.now (Some common.now) (with_index indexes.now index.now) x.labels x.targets) }
{
    let heres = heres_beside(alloc, &old.units, &new.units, &common.units)?;
    labels_with(alloc, old, new, common, indexes, index, &heres)
}

// Of files beside a common one without an index: it has no units.
fn labels_beside_none<'s, 'a>(
    alloc: Global,
    old: &'s File<'a>,
    new: &'s File<'a>,
    common: &'s File<'a>,
    indexes: &'s CrossIndexes,
) -> Result<CrossLabels, NoMemory>
    requires said { AreFilesSaid old.now new.now (Some common.now) indexes.now }
    requires none { indexes.now.common ≡ None }
    ensures many { IfOk result (λ x. length x.targets ≡ length x.labels) }
    ensures labels { IfOk result (λ x. AreLabelsFor old.now new.now (Some common.now) indexes.now x.labels x.targets) }
{
    let index = CrossIndex::read(alloc, &common.units, &CrossStarts { top: 0, lone: 0 })?;
    labels_beside(alloc, old, new, common, indexes, &index)
}

/// The labels of an old file, of a new one, and of the common file beside which they were read, if there is one.
pub fn labels_of_files<'s, 'a>(
    alloc: Global,
    old: &'s File<'a>,
    new: &'s File<'a>,
    common: Option<&'s File<'a>>,
    indexes: &'s CrossIndexes,
) -> Result<CrossLabels, NoMemory>
    requires { AreFilesSaid old.now new.now (option_map (λ f. f.now) common) indexes.now }
    ensures many { IfOk result (λ x. length x.targets ≡ length x.labels) }
    ensures labels { IfOk result (λ x. AreLabelsFor old.now new.now (option_map (λ f. f.now) common.entry) indexes.now x.labels x.targets) }
{
    match common {
        None => {
            let heres = heres_alone(alloc, &old.units, &new.units)?;
            labels_alone(alloc, old, new, indexes, &heres)
        }
        Some(file) => match &indexes.common {
            Some(index) => labels_beside(alloc, old, new, file, indexes, index),
            None => labels_beside_none(alloc, old, new, file, indexes),
        },
    }
}

/// The labels of the two files of a graph and of their common one, and the tops that each leads into, at the numbers that `old_side` and
/// `new_side` give them. The indexes are those of these files.
pub fn labels_of<'s, 'a>(
    alloc: Global,
    graph: &'s Graph<'a>,
    indexes: &'s CrossIndexes,
) -> Result<CrossLabels, NoMemory>
    requires two { length graph.now.back ≡ 2 }
    requires indexes { AreIndexesOf graph.now indexes.now }
    ensures many { IfOk result (λ x. length x.targets ≡ length x.labels) }
    ensures labels { IfOk result (λ x. AreLabelsOf graph.now x.labels x.targets) }
{
    placed_laws();
    let files = graph.back();
    labels_of_files(alloc, &files[0], &files[1], graph.common(), indexes)
}
