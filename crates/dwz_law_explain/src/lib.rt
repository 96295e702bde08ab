//! What a least way between nodes says of the tops that these show. `dwz_nodes_chains` finds the way, or that there is none; the laws here say
//! that this is the least chain of references, and leads to the tops of the nodes at its end, or that the tops are alike.
//!
//! Read first: `LeastWays.antt` of `dwz_nodes_chains`, `Chain.antt` of `dwz_def_explain`, then `specs/WayLaws.antt`.
#![tactic(auto)]

mod laws;

pub use laws::way_laws;
