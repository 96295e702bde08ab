//! Rows that are used again.

ghost use Rattle.std.specs.Prelude.{◌≡◌, []};

use dwz_expr::Operand;
use std::alloc::Global;

/// Rows that are used again from one value to the next, for the room that they have.
#[derive(Drop)]
pub struct Room {
    /// The name that was made last.
    pub(crate) made: Vec<u8>,
    /// The operands of the expression or the location list that was read last.
    pub(crate) operands: Vec<Operand>,
    /// The path that was made last.
    pub(crate) path: Vec<u32>,
}

impl Room {
    /// Empty rows.
    pub fn new(alloc: Global) -> Room
        ensures made { result.made.items ≡ [] }
        ensures operands { result.operands.items ≡ [] }
        ensures path { result.path.items ≡ [] }
    {
        Room {
            made: Vec::new(alloc),
            operands: Vec::new(alloc),
            path: Vec::new(alloc),
        }
    }
}
