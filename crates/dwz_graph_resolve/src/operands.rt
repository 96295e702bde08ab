//! Operands of location lists.

use dwz_model::{Base, Place};

/// An operand of a location list that an attribute names (DWARF 5, 2.6.2): it names an entry.
#[derive(Clone, Copy, Debug, PartialEq, Eq)]
pub struct ListOperand {
    /// Where it begins, in bytes from the first of `.debug_loclists`.
    pub at: u32,
    /// In bytes.
    pub width: u8,
    /// Whether it is a ULEB128 number, and not one of 4 bytes.
    pub uleb: bool,
    /// The number of the unit of the attribute that names the list.
    pub unit: u32,
    /// What its number is counted from.
    pub base: Base,
    /// The number in the file of the entry that it names.
    pub entry: u32,
    /// Where that entry stands.
    pub place: Place,
}
