//! What is known of a file whose entries are copied, and of the common file beside which it was read.

use crate::paths::TablePaths;
use dwz_expand_sources::Copies;
use dwz_graph::{Here, InputSections};
use dwz_layout::UnitRole;
use dwz_lines::TableRows;
use dwz_unit::Units;
use std::alloc::Global;

/// A file whose values were resolved.
#[derive(Clone, Copy)]
pub struct SourceFile<'s, 'a> {
    pub units: &'s Units<'a>,
    pub sections: &'s InputSections<'a>,
    /// `.debug_str` of the common file beside which it was read; empty, where there is none.
    pub common_strs: &'a [u8],
    /// Of each unit what its values stand in.
    pub heres: &'s [Here],
    /// The numbers of the entries that its references name, in order; those of the common file stand behind the file's own.
    pub refs: &'s [u32],
    /// Where those of each entry begin, and behind the last entry where they end.
    pub starts: &'s [u32],
    /// The line tables whose files are numbered.
    pub tables: &'s [TableRows<'a>],
    /// Of each unit the number of its line table.
    pub lines: &'s [Option<usize>],
}

/// A file and its common one, and the new unit at hand.
#[derive(Clone, Copy)]
pub struct Known<'s, 'a> {
    pub alloc: Global,
    pub own: SourceFile<'s, 'a>,
    /// The common file beside which it was read, if there is one.
    pub common: Option<SourceFile<'s, 'a>>,
    /// Which copies entries stand for in the new unit at hand.
    pub copies: &'s Copies,
    /// The number of that unit.
    pub unit: usize,
    /// The rows of its line table, by their paths.
    pub paths: &'s TablePaths,
}

/// An entry that is copied, by where it was read.
#[derive(Clone, Copy)]
pub(crate) struct SourceEntry<'s, 'a> {
    pub(crate) known: Known<'s, 'a>,
    pub(crate) file: SourceFile<'s, 'a>,
    /// The number of the first entry of its file, among those of the file and behind them of the common one.
    pub(crate) first: u32,
    /// What holds its unit.
    pub(crate) role: UnitRole,
    /// What the values of its unit stand in.
    pub(crate) here: &'s Here,
    /// The number of the line table of its unit.
    pub(crate) line: Option<usize>,
}
