//! What kinds of files there are, and how much is read of one.

ghost use Rattle.std.specs.Prelude.{◌<◌, ◌^◌};

/// A file's kind: it decides which units may stand in it, and which forms are read of them.
#[derive(Clone, Copy)]
pub enum FileKind {
    /// A file by itself: no unit is partial, and no form leads to a supplementary file.
    Given,
    /// A finished common file: all units are partial.
    Common,
    /// A file that is read back, with a supplementary file at hand or without one.
    Back { sup: bool },
}

/// What is read of a file, and how many entries there may be in it.
#[derive(Clone, Copy)]
pub(crate) struct Mode {
    pub kind: FileKind,
    pub room: u32,
    ghost few: { room < 2 ^ 32 },
}
