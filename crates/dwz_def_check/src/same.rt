//! The answer on two files.

/// Whether two files mean the same. Their units that aren't partial are counted.
#[derive(Debug, Drop)]
pub enum Same {
    /// They do.
    Yes,
    /// They have so many such units, the old one and the new one.
    Units { first: u32, second: u32 },
    /// As many, and these two, counted from 0, are the first that don't mean the same.
    Unit(u32),
}
