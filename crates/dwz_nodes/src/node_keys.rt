//! The keys of all nodes in a round, as they follow from labels and classes: none of them is written down.
ghost use Rattle.std.specs.Prelude.{◌≡◌, ◌<◌, ◌↔◌, All, IfOk, IsTrue, length, map, slice_index};
ghost use Rattle.dwz_nodes.specs.Graph.{IsClosed};
ghost use Rattle.dwz_nodes.specs.Keys.{all_keys, key, key_at, words_hash};

use crate::Nodes;
use crate::keys::{Keys, fill, hash_start, mix_word};
use dwz_model::NoMemory;
use std::alloc::Global;
use std::marker::Model;

/// The keys of all nodes under their classes. Contracts see it as the list of these keys.
#[derive(Drop)]
pub struct NodeKeys<'a> {
    nodes: &'a Nodes,
    classes: &'a [u32],
}

impl<'a> Model for NodeKeys<'a> {
    ghost use Rattle.std.specs.Prelude.{◌≡◌, ℕ, List, length};
    ghost use Rattle.dwz_nodes.specs.Graph.{IsClosed};
    ghost use Rattle.dwz_nodes.specs.Keys.{all_keys};

    ghost Value = { List (List ℕ) };

    ghost view = { λ k. all_keys k.nodes.now k.classes.now };

    ghost invariant = { λ k. IsClosed k.nodes.now × (length k.classes.now ≡ length k.nodes.now) };
}

impl<'a> NodeKeys<'a> {
    /// The keys of these nodes under these classes.
    pub fn new(nodes: &'a Nodes, classes: &'a [u32]) -> NodeKeys<'a>
        requires closed { IsClosed nodes.now }
        requires len { length classes.now ≡ length nodes.now }
        ensures { result ≡ all_keys nodes.now classes.now }
    {
        NodeKeys { nodes, classes }
    }

    /// How many nodes there are.
    pub fn len(&self) -> u32
        ensures { result ≡ length self.now }
    {
        self.nodes.len()
    }

    /// The hash of a node's key.
    pub fn hash(&self, node: u32) -> u64
        requires { node < length self.now }
        ensures { result ≡ words_hash (key_at self.now node) }
    {
        key_hash(self.nodes, self.classes, node)
    }

    /// Whether two nodes have one key.
    pub fn is_same(&self, a: u32, b: u32) -> bool
        requires inside { (a < length self.now) × (b < length self.now) }
        ensures { IsTrue result ↔ (key_at self.now a ≡ key_at self.now b) }
    {
        a == b || have_one_key(self.nodes, self.classes, a, b)
    }

    /// The same keys, written down.
    pub fn to_keys(&self, alloc: Global) -> Result<Keys, NoMemory>
        ensures { IfOk result (λ keys. keys ≡ self.now) }
    {
        let mut keys = Keys::new(alloc);
        fill(&mut keys, self.nodes, self.classes)?;
        Ok(keys)
    }
}

fn key_hash(nodes: &Nodes, classes: &[u32], a: u32) -> u64
    requires closed { IsClosed nodes.now }
    requires len { length classes.now ≡ length nodes.now }
    requires inside { a < length nodes.now }
    ensures { result ≡ words_hash (key nodes.now classes.now a) }
{
    let mut hash = mix_word(hash_start(), nodes.label(a));
    for target in nodes.targets(a) {
        hash = mix_word(hash, classes[*target as usize]);
    }
    hash
}

// Whether the classes of these are the same, one by one.
fn are_same_classes(classes: &[u32], xs: &[u32], ys: &[u32]) -> bool
    requires first { All (λ t. t < length classes.now) xs.now }
    requires second { All (λ t. t < length classes.now) ys.now }
    ensures { IsTrue result ↔ (map (λ t. slice_index classes.now t) xs.now ≡ map (λ t. slice_index classes.now t) ys.now) }
{
    if xs.len() != ys.len() {
        return false;
    }
    for at in 0..xs.len() {
        if classes[xs[at] as usize] != classes[ys[at] as usize] {
            return false;
        }
    }
    true
}

fn have_one_key(nodes: &Nodes, classes: &[u32], a: u32, b: u32) -> bool
    requires closed { IsClosed nodes.now }
    requires len { length classes.now ≡ length nodes.now }
    requires inside { (a < length nodes.now) × (b < length nodes.now) }
    ensures { IsTrue result ↔ (key nodes.now classes.now a ≡ key nodes.now classes.now b) }
{
    nodes.label(a) == nodes.label(b)
        && are_same_classes(classes, nodes.targets(a), nodes.targets(b))
}
