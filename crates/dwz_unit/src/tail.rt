//! The ends of tables.

/// The end of a table, by the table's number.
#[derive(Clone, Copy)]
pub(crate) struct Tail {
    pub base: usize,
    /// How many of its first declarations are left out.
    pub skip: usize,
}
