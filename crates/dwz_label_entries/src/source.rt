//! What labels are written from.

ghost use Rattle.std.specs.Prelude.{◌≡◌, []};

use dwz_expr::Operand;
use dwz_graph::{Index, InputSections};
use dwz_lines::TableRows;
use dwz_unit::Units;
use std::alloc::Global;

/// A file whose values were resolved.
#[derive(Clone, Copy)]
pub struct Source<'s, 'a> {
    pub alloc: Global,
    pub units: &'s Units<'a>,
    pub sections: &'s InputSections<'a>,
    /// The numbers of the entries that its references name, in order.
    pub refs: &'s [u32],
    /// The line tables whose files are numbered.
    pub tables: &'s [TableRows<'a>],
    /// The tops of its entries, and their paths there.
    pub index: &'s Index,
}

/// Rows that are used again, for the room that they have.
#[derive(Drop)]
pub struct Scratch {
    /// The operands of the expression or the location list that was read last.
    pub operands: Vec<Operand>,
    /// The path that was made last.
    pub path: Vec<u32>,
}

impl Scratch {
    /// Empty rows.
    pub fn new(alloc: Global) -> Scratch
        ensures operands { result.operands.items ≡ [] }
        ensures path { result.path.items ≡ [] }
    {
        Scratch {
            operands: Vec::new(alloc),
            path: Vec::new(alloc),
        }
    }
}
