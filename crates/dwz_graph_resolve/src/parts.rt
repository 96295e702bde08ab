//! Where the references of entries begin, and which line tables units have.

ghost use Rattle.std.specs.Prelude.{◌≡◌, ◌<◌, ◌^◌, [], ◌∷◌, ◌++◌, length, IfOk};
ghost use Rattle.dwz_graph_resolve.specs.FileRows.{number_at};

use crate::files::Files;
use std::alloc::{AllocError, Global};

/// Where the references of entries begin, and which line tables units have.
#[derive(Drop)]
pub(crate) struct Parts {
    /// Where the references of each entry begin, and behind the last one where they end.
    pub starts: Vec<u32>,
    /// For each unit the number of its line table.
    pub lines: Vec<Option<usize>>,
}

impl Parts {
    /// Those of no entry and no unit.
    pub(crate) fn new(alloc: Global) -> Result<Parts, AllocError>
        ensures starts { IfOk result (λ parts. parts.starts.items ≡ 0 ∷ []) }
        ensures lines { IfOk result (λ parts. parts.lines.items ≡ []) }
    {
        let mut starts = Vec::new(alloc);
        starts.push(0)?;
        Ok(Parts {
            starts,
            lines: Vec::new(alloc),
        })
    }

    /// The references of one more entry end behind so many.
    #[inline(always)]
    pub(crate) fn end_entry(&mut self, refs: usize) -> Result<(), AllocError>
        ensures starts { refs < 2 ^ 32 → IfOk result (λ u. self.new.starts.items ≡ self.old.starts.items ++ refs ∷ []) }
        ensures lines { self.new.lines ≡ self.old.lines }
    {
        self.starts.push(refs.min(u32::MAX as usize) as u32)?;
        Ok(())
    }

    /// One more unit ends, whose line table begins at `line`, if it has one.
    pub(crate) fn end_unit(&mut self, files: &Files, line: Option<u32>) -> Result<(), AllocError>
        ensures lines { IfOk result (λ u. self.new.lines.items ≡ self.old.lines.items ++ number_at files.now line ∷ []) }
        ensures starts { self.new.starts ≡ self.old.starts }
    {
        self.lines.push(files.number_at(line))?;
        Ok(())
    }
}
