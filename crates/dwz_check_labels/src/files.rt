//! The labels of all tops of a file, and of all its roots and spaces.

ghost use Rattle.std.specs.Prelude.{◌≡◌, ℕ, ◌+◌, ◌<◌, ◌^◌, List, OnOk, length};
ghost use Rattle.dwz_def_reading.specs.Documents.{DwUnit};
ghost use Rattle.dwz_def_reading.specs.Units.{entries_in};
ghost use Rattle.dwz_def_check.specs.CrossNames.{CrossName};
ghost use Rattle.dwz_check_labels.specs.Both.{lone_into, lone_labels, top_labels, top_targets};
ghost use Rattle.dwz_check_labels.specs.Files.{IsReady, KnowsSource, raw_of};
ghost use Rattle.dwz_check_labels.specs.Rows.{Adds, AreKeysBelow, AreTopsWithin, AreWithin};

use crate::entries::put_lone;
use crate::rows::put_label;
use crate::source::Source;
use crate::tops::put_top;
use dwz_groups::Edge;
use dwz_label::Labels;
use dwz_label_entries::Scratch;
use dwz_model::NoMemory;

/// Appends the labels of the tops of a file, in order, and the tops that they lead into.
pub fn put_tops(source: &Source, labels: &mut Labels, edges: &mut Vec<Edge>) -> Result<(), NoMemory>
    requires ready { IsReady source.now }
    requires within { AreTopsWithin (entries_in (raw_of source.now)) source.now.own.index.now.tops }
    requires few { length labels.old + length source.now.own.index.now.tops < 2 ^ 32 }
    requires keys { AreKeysBelow (length labels.old) edges.old.items }
    ensures keys { OnOk result (AreKeysBelow (length labels.new) edges.new.items) }
    ensures count { OnOk result (length labels.new ≡ length labels.old + length source.now.own.index.now.tops) }
    ensures adds { (said : List (DwUnit ℕ)) (name : ℕ → CrossName) → KnowsSource source.now said name
        → OnOk result (Adds (top_labels name said) (top_targets name said) labels.old labels.new edges.old.items edges.new.items) }
{
    let mut out = Vec::new(source.alloc);
    let mut tops = Vec::new(source.alloc);
    let mut scratch = Scratch::new(source.alloc);
    let list = source.own.index.tops();
    for top in list {
        out.clear();
        tops.clear();
        put_top(source, &mut out, &mut tops, top, &mut scratch)?;
        put_label(labels, edges, &out, &tops)?;
    }
    Ok(())
}

/// Appends the labels of the roots of its compile units and of their spaces alone, in order, and the tops that they lead into.
pub fn put_lones(
    source: &Source,
    labels: &mut Labels,
    edges: &mut Vec<Edge>,
) -> Result<(), NoMemory>
    requires ready { IsReady source.now }
    requires within { AreWithin (entries_in (raw_of source.now)) source.now.own.index.now.lone }
    requires few { length labels.old + length source.now.own.index.now.lone < 2 ^ 32 }
    requires keys { AreKeysBelow (length labels.old) edges.old.items }
    ensures keys { OnOk result (AreKeysBelow (length labels.new) edges.new.items) }
    ensures count { OnOk result (length labels.new ≡ length labels.old + length source.now.own.index.now.lone) }
    ensures adds { (said : List (DwUnit ℕ)) (name : ℕ → CrossName) → KnowsSource source.now said name
        → OnOk result (Adds (lone_labels name said) (lone_into name said) labels.old labels.new edges.old.items edges.new.items) }
{
    let mut out = Vec::new(source.alloc);
    let mut tops = Vec::new(source.alloc);
    let mut scratch = Scratch::new(source.alloc);
    let list = source.own.index.lone();
    for entry in list {
        out.clear();
        tops.clear();
        put_lone(source, &mut out, &mut tops, *entry, &mut scratch)?;
        put_label(labels, edges, &out, &tops)?;
    }
    Ok(())
}
