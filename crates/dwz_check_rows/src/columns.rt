//! What is known of nodes and units, beside the classes of nodes.

use dwz_groups::Groups;
use dwz_model::{DwzList, Flags, Numbers};

/// What a unit is, with the nodes that are in none of its tops. Behind a root come its spaces, in order.
#[derive(Clone, Copy)]
pub enum RowKind {
    /// Its root has that node, and the spaces those from the next one up to the end.
    Compile { root: u32, spaces_end: u32 },
    /// With that signature. Its root is its one top.
    OfType { signature: u64 },
    Partial,
}

/// A unit, with the nodes of its tops, from the first up to the end.
#[derive(Clone, Copy)]
pub struct UnitNodes {
    pub kind: RowKind,
    pub top: u32,
    pub tops_end: u32,
}

/// A list of units.
pub type UnitList = DwzList<UnitNodes>;

/// What is known of the nodes and units of two files and their common one.
#[derive(Drop)]
pub struct Columns {
    /// Of each node: a number for the name list of what it shows, the same for equal lists alone.
    pub names: Numbers,
    /// Of each node, whether it shows a top that imports no partial unit.
    pub plain: Flags,
    /// The units of the old file, those of the new one, and the common ones.
    pub units: UnitList,
    /// How many units the old file has.
    pub old: usize,
    /// How many the new one has.
    pub new: usize,
    /// Of each unit the path from the root to its type, if it is a type unit.
    pub paths: Groups,
    /// Of each unit the numbers of the partial units that children of its root import.
    pub imports: Groups,
}
