//! What is written, in order.

use crate::known::Row;
use dwz_layout_items::Item;
use dwz_model::DwzList;

/// What kind of unit is written (DWARF 5, 7.5.1).
#[derive(Clone, Copy)]
pub enum Sort {
    /// A compile unit that was read, with its root.
    Compile(Row),
    /// A type unit that was read, with its root, its signature, and the number among all files of the entry that describes its type.
    OfType {
        root: Row,
        signature: u64,
        main: u32,
    },
    /// A partial unit, with the offset of its line table, if its root names one (3.1.1).
    Partial(Option<u32>),
}

/// A unit, with its entries in order.
#[derive(Drop)]
pub struct UnitItems {
    pub sort: Sort,
    pub items: DwzList<Item>,
}

/// The units of a file that is written.
pub type FileItems = DwzList<UnitItems>;
