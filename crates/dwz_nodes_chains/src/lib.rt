//! Why two nodes of a graph aren't alike: the least chain of targets that leads from both to two that differ by themselves.
//!
//! `find_chain` looks at pairs of nodes breadth first: at the two that are asked about, then at their first targets, their second targets
//! and so on, then at the targets of these. The first pair that differs is the end of the least chain, and each pair knows from which it
//! was come by. The nodes of a pair are joined into one group, and two of one group aren't looked at: what tells them apart stands at the
//! end of an earlier chain too. So there are fewer pairs than nodes, and at most as many looks as these have targets.
//!
//! It knows no DWARF: what a label or a target means is the caller's.
//!
//! Read first: `Looks.antt` of `dwz_nodes`, then `specs/LeastWays.antt`.
#![tactic(auto)]

mod links;
mod pairs;
mod search;

pub use search::{Difference, find_chain};
