//! The order in which entries are written.

/// What is written at once.
#[derive(Clone, Copy, Debug, PartialEq, Eq)]
pub enum ItemKind {
    /// The root of the unit.
    Root,
    /// The root of the unit with all entries below it.
    Whole,
    /// The top with this number, with all entries below it.
    Top(u32),
    /// The space with this number, as it was read.
    Space(u32),
    /// A space of a partial unit, in the chain with that number, which has its name from the space with this number.
    InChain { chain: u32, space: u32 },
    /// An import of the partial unit with this number (DWARF 5, 3.2.5).
    Import(u32),
}

/// What is written at once, and how deep its first entry stands: a root has depth 1.
#[derive(Clone, Copy, Debug, PartialEq, Eq)]
pub struct Item {
    pub what: ItemKind,
    pub depth: u32,
}

/// A top of a compile unit, or a space of it: a named namespace in its root or in another space (DWARF 5, 3.2.2).
#[derive(Clone, Copy, Debug, PartialEq, Eq)]
pub struct Outer {
    /// The top or the space.
    pub what: ItemKind,
    /// How many tops and spaces stand in it, those in its spaces among them: as many as follow it. In a top there are none.
    pub inside: u32,
    /// Whether it stays in its unit. A space always does.
    pub stays: bool,
    /// Whether it has to stand near the beginning: an operand that is a ULEB128 number names an entry of the top, or the space, or
    /// an entry of a top that stays in the space.
    pub pinned: bool,
}
