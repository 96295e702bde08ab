//! What is kept of the values that were looked at.

ghost use Rattle.std.specs.Prelude.{◌≡◌, []};
ghost use Rattle.dwz_def_reading.specs.Meanings.{Sources};
ghost use Rattle.dwz_graph_resolve.specs.FileRows.{KnowTables};

use crate::files::Files;
use crate::hints::Hints;
use crate::lists::Lists;
use dwz_expr::Operand;
use std::alloc::Global;

/// What is kept of the values that were looked at.
#[derive(Drop)]
pub(crate) struct State<'a> {
    /// The number of the file.
    pub file: u32,
    /// The numbers of the entries that they name.
    pub refs: Vec<u32>,
    /// The location lists that they name.
    pub lists: Lists,
    /// The line tables that they name rows of.
    pub files: Files<'a>,
    /// Operands of the expression that was read last, kept for the room that they have.
    pub operands: Vec<Operand>,
    /// Numbers of entries that were named.
    pub hints: Hints,
}

impl<'a> State<'a> {
    pub(crate) fn new(alloc: Global, file: u32, hints: Hints) -> State<'a>
        ensures file { result.file ≡ file }
        ensures refs { result.refs.items ≡ [] }
        ensures rows { result.lists.rows.items ≡ [] }
        ensures operands { result.lists.operands.items ≡ [] }
        ensures slots { result.lists.slots.items ≡ [] }
        ensures marks { result.lists.marks.items ≡ [] }
        ensures tables { (sources : Sources) → KnowTables sources result.files }
    {
        State {
            file,
            refs: Vec::new(alloc),
            lists: Lists {
                rows: Vec::new(alloc),
                operands: Vec::new(alloc),
                slots: Vec::new(alloc),
                marks: Vec::new(alloc),
                places: Vec::new(alloc),
            },
            files: Files::new(alloc),
            operands: Vec::new(alloc),
            hints,
        }
    }
}
