//! The labels of the tops of a file that was read by itself.

ghost use Rattle.std.specs.Prelude.{◌≡◌, ◌<◌, ◌^◌, IfOk, length};
ghost use Rattle.dwz_check_labels.specs.Beside.{IsSourceReady, top_count};
ghost use Rattle.dwz_check_labels.specs.Both.{KnowsNamed, Named, top_labels, top_targets};
ghost use Rattle.dwz_check_labels.specs.Files.{AreHeres};
ghost use Rattle.dwz_check_labels.specs.FilesSaid.{AreTopLabels, IsIndexed};
ghost use Rattle.dwz_unit.specs.Rows.{units_of};

use crate::both::CrossLabels;
use crate::files::put_tops;
use crate::graph::{named_file, source_of};
use crate::heres::heres_of;
use crate::source::Source;
use dwz_check_index::CrossIndex;
use dwz_graph::{File, Here};
use dwz_groups::group;
use dwz_label::Labels;
use dwz_model::NoMemory;
use std::alloc::Global;

// The labels of the tops that those are written from.
fn labels_of_tops(source: &Source) -> Result<CrossLabels, NoMemory>
    requires ready { IsSourceReady source.now }
    requires few { top_count source.now < 2 ^ 32 }
    ensures many { IfOk result (λ x. length x.targets ≡ length x.labels) }
    ensures count { IfOk result (λ x. length x.labels ≡ top_count source.now) }
    ensures labels { (n : Named) → KnowsNamed source.now n
        → IfOk result (λ x. (x.labels ≡ top_labels n.name n.said) × (x.targets ≡ top_targets n.name n.said)) }
{
    let mut labels = Labels::new(source.alloc);
    let mut edges = Vec::new(source.alloc);
    put_tops(source, &mut labels, &mut edges)?;
    let targets = group(source.alloc, labels.len(), edges.as_slice())?;
    Ok(CrossLabels { labels, targets })
}

// The same of a file with its index, where it is known what the values of each unit stand in.
fn labels_from<'s, 'a>(
    alloc: Global,
    file: &'s File<'a>,
    index: &'s CrossIndex,
    heres: &'s [Here],
) -> Result<CrossLabels, NoMemory>
    requires indexed { IsIndexed file.now index.now }
    requires heres { AreHeres (units_of file.now.units) heres.now }
    ensures many { IfOk result (λ x. length x.targets ≡ length x.labels) }
    ensures count { IfOk result (λ x. length x.labels ≡ length index.now.tops) }
    ensures labels { IfOk result (λ x. AreTopLabels file.now index.now x.labels x.targets) }
{
    let own = named_file(file, &[], index, heres);
    let source = source_of(alloc, file, own, None);
    labels_of_tops(&source)
}

/// The labels of the tops of a file that was read by itself, as a finished common file is, and the tops that each leads into, in order: by
/// its index, which has the numbers of its tops.
pub fn labels_by_itself(
    alloc: Global,
    file: &File,
    index: &CrossIndex,
) -> Result<CrossLabels, NoMemory>
    requires { IsIndexed file.now index.now }
    ensures many { IfOk result (λ x. length x.targets ≡ length x.labels) }
    ensures count { IfOk result (λ x. length x.labels ≡ length index.now.tops) }
    ensures labels { IfOk result (λ x. AreTopLabels file.now index.now x.labels x.targets) }
{
    let heres = heres_of(alloc, &file.units)?;
    labels_from(alloc, file, index, heres.as_slice())
}
