//! Nodes in the order of their keys, so that those with one key stand together.
ghost use Rattle.std.specs.Prelude.{◌≡◌, ℕ, ◌<◌, All, IfOk, IsPermutation, length, slice_index};
ghost use Rattle.dwz_nodes.specs.Keys.{key_at, words_hash};
ghost use Rattle.dwz_nodes.specs.Order.{nodes_of, keys_of, AreTogether, IsNew, AreGroups};

use crate::keys::{Keys, hash_words, is_same_key};
use dwz_model::NoMemory;
use std::alloc::Global;

/// A node with its key. It is ordered by the key's hash, by the key, and then by the node.
#[derive(Clone, Copy, PartialEq, Eq, PartialOrd, Ord)]
pub struct Keyed<'k> {
    hash: u64,
    key: &'k [u32],
    node: u32,
}

/// Nodes, and for each whether its key isn't that of the node before it.
#[derive(Drop)]
pub struct Groups {
    pub nodes: Vec<u32>,
    pub news: Vec<bool>,
}

/// The nodes of the list, each with the key that stands at its place.
pub fn rows_of<'k>(alloc: Global, keys: &'k Keys, nodes: &[u32]) -> Result<Vec<Keyed<'k>>, NoMemory>
    requires { length keys.now ≡ length nodes.now }
    ensures nodes { IfOk result (λ rows. nodes_of rows.items ≡ nodes.now) }
    ensures keys { IfOk result (λ rows. keys_of rows.items ≡ keys.now) }
    ensures hashed { IfOk result (λ rows. All (λ r. r.hash ≡ words_hash r.key.now) rows.items) }
{
    let mut rows = Vec::with_capacity(alloc, nodes.len())?;
    for at in 0..nodes.len() {
        let key = keys.get(at);
        rows.push(Keyed {
            hash: hash_words(key),
            key,
            node: nodes[at],
        })?;
    }
    Ok(rows)
}

/// The nodes of the list, each with its own key.
pub fn rows_at<'k>(alloc: Global, keys: &'k Keys, nodes: &[u32]) -> Result<Vec<Keyed<'k>>, NoMemory>
    requires { All (λ a. a < length keys.now) nodes.now }
    ensures nodes { IfOk result (λ rows. nodes_of rows.items ≡ nodes.now) }
    ensures keys { IfOk result (λ rows. All (λ r. r.key.now ≡ key_at keys.now r.node) rows.items) }
    ensures hashed { IfOk result (λ rows. All (λ r. r.hash ≡ words_hash r.key.now) rows.items) }
{
    let mut rows = Vec::with_capacity(alloc, nodes.len())?;
    for at in 0..nodes.len() {
        let node = nodes[at];
        let key = keys.get(node as usize);
        rows.push(Keyed {
            hash: hash_words(key),
            key,
            node,
        })?;
    }
    Ok(rows)
}

// Whether the key of a row isn't that of the row before it.
fn is_new(rows: &[Keyed<'_>], at: usize) -> bool
    requires inside { at < length rows.now }
    requires together { AreTogether rows.now }
    ensures { IsNew (λ j. key_at (keys_of rows.now) j) result at }
{
    at == 0 || !is_same_key(rows[at - 1].key, rows[at].key)
}

// Beside each row whether its key isn't that of the row before it.
fn mark_groups(alloc: Global, rows: &[Keyed<'_>]) -> Result<Groups, NoMemory>
    requires { AreTogether rows.now }
    ensures { IfOk result (λ groups. AreGroups rows.now groups.nodes.items groups.news.items) }
{
    let mut nodes = Vec::with_capacity(alloc, rows.len())?;
    let mut news = Vec::with_capacity(alloc, rows.len())?;
    for at in 0..rows.len() {
        nodes.push(rows[at].node)?;
        news.push(is_new(rows, at))?;
    }
    Ok(Groups { nodes, news })
}

/// The nodes of the rows, those with one key together and in ascending order.
pub fn groups_of(alloc: Global, mut rows: Vec<Keyed<'_>>) -> Result<Groups, NoMemory>
    requires { All (λ r. r.hash ≡ words_hash r.key.now) rows.items }
    ensures { IfOk result (λ groups. (ordered : _) × IsPermutation rows.entry.items ordered × AreGroups ordered groups.nodes.items
        groups.news.items) }
{
    rows.sort_unstable();
    mark_groups(alloc, rows.as_slice())
}
