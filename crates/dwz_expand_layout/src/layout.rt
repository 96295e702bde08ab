//! Where new units and their entries stand.

use dwz_layout::Tables;

/// A unit that is laid: where it begins and ends in `.debug_info`, and the offset of its table in `.debug_abbrev`.
#[derive(Clone, Copy)]
pub struct LaidUnit {
    pub at: u64,
    pub end: u64,
    pub table: u64,
}

/// Where all new units and copies stand.
#[derive(Drop)]
pub struct NewLayout {
    pub units: Vec<LaidUnit>,
    /// `.debug_abbrev`.
    pub tables: Tables,
    /// Of each copy its place in `.debug_info`.
    pub places: Vec<u64>,
    /// Of each copy the code of its declaration in the table of its unit.
    pub codes: Vec<u32>,
    /// How many bytes `.debug_info` has.
    pub end: u64,
}
