//! What labels are written from.

ghost use Rattle.std.specs.Prelude.{◌≡◌, ◌<◌, Some, length, slice_get};

use crate::named_file::NamedFile;
use dwz_lines::TableRows;
use std::alloc::Global;

/// A file whose values were resolved, and the common file beside which it was read, if there is one.
#[derive(Clone, Copy)]
pub struct Source<'s, 'a> {
    pub alloc: Global,
    pub own: NamedFile<'s, 'a>,
    pub common: Option<NamedFile<'s, 'a>>,
    /// The numbers of the entries that its references name, in order; those of the common file stand behind the file's own.
    pub refs: &'s [u32],
    /// Where those of each entry begin, and behind the last entry where they end.
    pub starts: &'s [u32],
    /// The line tables whose files are numbered.
    pub tables: &'s [TableRows<'a>],
    /// Of each unit the number of its line table.
    pub lines: &'s [Option<usize>],
}

/// The number of the line table of the unit with a number, if it has one.
#[inline(always)]
pub(crate) fn line_at(source: &Source, unit: u32) -> Option<usize>
    requires { unit < length source.now.lines.now }
    ensures { slice_get source.now.lines.now unit ≡ Some result }
{
    source.lines[unit as usize]
}
