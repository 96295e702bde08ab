//! What the values of forms stand for (DWARF 5, 7.5.5).

/// What the number or the bytes of a form stand for.
#[derive(Clone, Copy, Debug, PartialEq, Eq)]
pub enum Class {
    /// An address.
    Address,
    /// Bytes.
    Block,
    /// A number.
    Constant,
    /// A flag.
    Flag,
    /// A text that stands there.
    Text,
    /// A text in `.debug_str`, by its offset.
    TextInStr,
    /// A text in `.debug_line_str`, by its offset.
    TextInLineStr,
    /// A text by a slot of `.debug_str_offsets`.
    TextBySlot,
    /// An entry of the unit.
    UnitEntry,
    /// An entry of any unit.
    InfoEntry,
    /// A type's signature.
    Signature,
    /// An offset into another section.
    Offset,
    /// An expression.
    Expression,
    /// A location list by its index.
    ListIndex,
    /// An index of another table.
    Index,
    /// An entry of the supplementary file.
    CommonEntry,
    /// A text of the supplementary file.
    CommonText,
    /// The form isn't read.
    Unread,
}
