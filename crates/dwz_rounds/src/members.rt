//! Where the members of a class stand in one row of nodes.
//!
//! Nodes are only appended to the row: one that moves stands in two ranges, of which only that of its number counts. So nothing has to be
//! moved within the row, and the proof needs one fact: each node stands in its class's range.

/// From the place `start` to before `end` of the row.
#[derive(Clone, Copy)]
pub(crate) struct Range {
    pub(crate) start: usize,
    pub(crate) end: usize,
    /// How many of the nodes there are still of the class.
    pub(crate) live: u32,
}
