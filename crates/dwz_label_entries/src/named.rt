//! Which entries a value names.

/// The entries that a value names.
#[derive(Clone, Copy, Debug, PartialEq, Eq)]
pub enum Named {
    /// Those of so many references of its file, from the next one on.
    Next(usize),
    /// Those of the operands of a location list, which were kept.
    Kept,
}
