//! Labels that were written, and the tops that they lead into.

ghost use Rattle.std.specs.Prelude.{◌≡◌, ◌<◌, ◌^◌, ◌++◌, ◌∷◌, [], OnOk, length, map};
ghost use Rattle.dwz_check_labels.specs.Rows.{Adds, AreKeysBelow, edge};

use dwz_groups::Edge;
use dwz_label::Labels;
use dwz_model::NoMemory;

// Appends a pair for each top.
fn put_edges(edges: &mut Vec<Edge>, key: u32, tops: &[u32]) -> Result<(), NoMemory>
    ensures { OnOk result (edges.new.items ≡ edges.old.items ++ map (edge key) tops.now) }
{
    for top in tops {
        edges.push(Edge { key, value: *top })?;
    }
    Ok(())
}

/// Appends a label, and the tops that it leads into.
pub(crate) fn put_label(
    labels: &mut Labels,
    edges: &mut Vec<Edge>,
    label: &[u8],
    tops: &[u32],
) -> Result<(), NoMemory>
    requires few { length labels.old < 2 ^ 32 }
    requires keys { AreKeysBelow (length labels.old) edges.old.items }
    ensures keys { OnOk result (AreKeysBelow (length labels.new) edges.new.items) }
    ensures adds { OnOk result (Adds (label.now ∷ []) (tops.now ∷ []) labels.old labels.new edges.old.items edges.new.items) }
{
    put_edges(edges, labels.len() as u32, tops)?;
    labels.push(label)?;
    Ok(())
}
