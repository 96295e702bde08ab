//! The labels of two files and of their common one.

ghost use Rattle.std.specs.Prelude.{◌≡◌, ◌+◌, ◌<◌, ◌^◌, IfOk, OnOk, length};
ghost use Rattle.dwz_check_labels.specs.Both.{KnowsBeside, KnowsNamed, Named, all_labels, all_targets, top_labels, top_targets};
ghost use Rattle.dwz_check_labels.specs.Beside.{AreFew, IsBesideReady, IsSourceReady, tops_beside};
ghost use Rattle.dwz_check_labels.specs.Rows.{Adds, AreKeysBelow};

use crate::files::{put_lones, put_tops};
use crate::source::Source;
use dwz_groups::{Edge, Groups, group};
use dwz_label::Labels;
use dwz_model::NoMemory;

/// The labels of tops, roots and spaces, and of each the numbers of the tops that it leads into.
#[derive(Drop)]
pub struct CrossLabels {
    pub labels: Labels,
    pub targets: Groups,
}

// The tops of the common file, if there is one.
fn put_common(
    common: &Option<Source>,
    labels: &mut Labels,
    edges: &mut Vec<Edge>,
) -> Result<(), NoMemory>
    requires ready { IsBesideReady common.now }
    requires few { length labels.old + tops_beside common.now < 2 ^ 32 }
    requires keys { AreKeysBelow (length labels.old) edges.old.items }
    ensures keys { OnOk result (AreKeysBelow (length labels.new) edges.new.items) }
    ensures count { OnOk result (length labels.new ≡ length labels.old + tops_beside common.now) }
    ensures adds { (c : Named) → KnowsBeside common.now c
        → OnOk result (Adds (top_labels c.name c.said) (top_targets c.name c.said) labels.old labels.new edges.old.items edges.new.items) }
{
    match common {
        None => Ok(()),
        Some(source) => put_tops(source, labels, edges),
    }
}

/// The labels of an old file, of a new one, and of the common file beside which they were read, if there is one.
pub fn labels_of_sources(
    old: &Source,
    new: &Source,
    common: &Option<Source>,
) -> Result<CrossLabels, NoMemory>
    requires old { IsSourceReady old.now }
    requires new { IsSourceReady new.now }
    requires common { IsBesideReady common.now }
    requires few { AreFew old.now new.now common.now }
    ensures many { IfOk result (λ x. length x.targets ≡ length x.labels) }
    ensures labels { (a b c : Named) → KnowsNamed old.now a → KnowsNamed new.now b → KnowsBeside common.now c
        → IfOk result (λ x. (x.labels ≡ all_labels a b c) × (x.targets ≡ all_targets a b c)) }
{
    let mut labels = Labels::new(old.alloc);
    let mut edges = Vec::new(old.alloc);
    put_tops(old, &mut labels, &mut edges)?;
    put_tops(new, &mut labels, &mut edges)?;
    put_common(common, &mut labels, &mut edges)?;
    put_lones(old, &mut labels, &mut edges)?;
    put_lones(new, &mut labels, &mut edges)?;
    let targets = group(old.alloc, labels.len(), edges.as_slice())?;
    Ok(CrossLabels { labels, targets })
}
