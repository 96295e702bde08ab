//! What is written of new units, entry by entry.

use dwz_def_reading::Operand;
use dwz_forms::Raw;
use dwz_model::Pair;

/// An operand of an expression that names an entry (DWARF 5, 2.5), and what that entry is in the new file.
#[derive(Clone, Copy)]
pub struct NewOperand {
    /// As it was read. Its number doesn't count.
    pub operand: Operand,
    /// The number of the copy among the entries of all new units.
    pub copy: u64,
}

/// An expression, as it was read, and which of the operands of its entry are its own.
#[derive(Clone, Copy)]
pub struct NewExpression<'a> {
    /// In the section from which it was read, in bytes from the first: the places of its operands are counted from there too.
    pub start: u64,
    pub bytes: &'a [u8],
    /// The number of its first operand among those of the entry.
    pub first: usize,
    /// The number behind that of its last operand.
    pub end: usize,
}

/// What an attribute stores.
#[derive(Clone, Copy)]
pub enum Content<'a> {
    /// What was read, or what was chosen in its place: no entry, and no expression. In `DW_FORM_string` a text, whatever its bytes are.
    Stored(Raw<'a>),
    /// The number of an entry, in a form of references: of the copy that has this number among the entries of all new units.
    OfCopy(u64),
    /// An expression, in `DW_FORM_exprloc`.
    Expression(NewExpression<'a>),
}

/// An attribute: its name and form as they are declared, and what it stores.
#[derive(Clone, Copy)]
pub struct NewAttr<'a> {
    pub pair: Pair,
    pub content: Content<'a>,
}

/// An entry, as it follows the one before it in preorder.
#[derive(Clone, Copy)]
pub struct NewEntry<'e, 'a> {
    pub tag: u16,
    /// Whether the next entry is a child of it.
    pub children: bool,
    /// How many lists of children end behind it: each has one end, of a zero byte (DWARF 5, 7.5.3).
    pub ends: u64,
    pub attrs: &'e [NewAttr<'a>],
    /// The operands of all its expressions.
    pub operands: &'e [NewOperand],
}

/// What kind of unit it is (DWARF 5, 7.5.1).
#[derive(Clone, Copy)]
pub enum NewKind {
    Compile,
    OfType {
        signature: u64,
        /// The number of the copy, among the entries of all new units, that describes the type.
        main: u64,
    },
}
