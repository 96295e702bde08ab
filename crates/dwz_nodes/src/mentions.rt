//! Where pending nodes are targets: by this a pass finds the nodes to look at, and what to tell them apart by.
ghost use Rattle.std.specs.Prelude.{◌≡◌, ℕ, ◌+◌, ◌-◌, ◌<◌, ◌≤◌, ◌^◌, ◌++◌, [], All, OnOk, length, map, slice_index};
ghost use Rattle.std.specs.List.{flat_map};
ghost use Rattle.std.specs.List.Sorted.{IsNonDecreasingBy, IsPartitionPoint};
ghost use Rattle.dwz_nodes.specs.Uses.{uses_at};
ghost use Rattle.dwz_nodes.specs.Mentions.{mention, mentions_at, run_of, AreMentions};

use crate::{Use, Uses};
use dwz_model::NoMemory;

/// A place among the targets of a node where a pending node stands, and the number of that. It is ordered by the node, by
/// the place, and then by the number.
#[derive(Clone, Copy, PartialEq, Eq, PartialOrd, Ord)]
pub struct Mention {
    pub source: u32,
    pub position: u32,
    pub number: u32,
}

// Appends the mentions of a node with this number.
fn mention_node(places: &[Use], number: u32, mentions: &mut Vec<Mention>) -> Result<(), NoMemory>
    ensures { OnOk result (mentions.new.items ≡ mentions.old.items ++ map (mention number) places.now) }
{
    for place in places {
        mentions.push(Mention {
            source: place.source,
            position: place.position,
            number,
        })?;
    }
    Ok(())
}

// Appends the mentions of pending nodes, one node after the other.
fn mention_all(
    uses: &Uses,
    numbers: &[u32],
    pending: &[u32],
    mentions: &mut Vec<Mention>,
) -> Result<(), NoMemory>
    requires len { length uses.now ≡ length numbers.now }
    requires pending { All (λ t. t < length numbers.now) pending.now }
    ensures { OnOk result (mentions.new.items ≡ mentions.old.items ++ flat_map (mentions_at uses.now numbers.now) pending.now) }
{
    for node in pending {
        mention_node(uses.of(*node), numbers[*node as usize], mentions)?;
    }
    Ok(())
}

/// Lists the mentions of pending nodes, in ascending order, each once. What `mentions` held is lost.
pub fn list_mentions(
    uses: &Uses,
    numbers: &[u32],
    pending: &[u32],
    mentions: &mut Vec<Mention>,
) -> Result<(), NoMemory>
    requires len { length uses.now ≡ length numbers.now }
    requires pending { All (λ t. t < length numbers.now) pending.now }
    ensures { OnOk result (AreMentions uses.now numbers.now pending.now mentions.new.items) }
{
    mentions.clear();
    mention_all(uses, numbers, pending, mentions)?;
    mentions.sort_unstable();
    mentions.dedup();
    Ok(())
}

// Where the mentions by the nodes from `a` on begin.
fn begin_of(mentions: &[Mention], a: u32) -> usize
    requires { IsNonDecreasingBy (λ m. m.source) mentions.now }
    ensures within { result ≤ length mentions.now }
    ensures begin { IsPartitionPoint (λ m. m.source < a) (λ m. a ≤ m.source) mentions.now result }
{
    mentions.partition_point(|mention| mention.source < a)
}

/// The mentions by one node.
pub(crate) fn run_of(mentions: &[Mention], a: u32) -> &[Mention]
    requires few { a < 2 ^ 32 - 1 }
    requires rising { IsNonDecreasingBy (λ m. m.source) mentions.now }
    ensures { result.now ≡ run_of mentions.now a }
{
    let start = begin_of(mentions, a);
    let end = begin_of(mentions, a + 1);
    &mentions[start..end]
}
