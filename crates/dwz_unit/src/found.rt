//! Tables that are looked up: the ends of others.

ghost use Rattle.std.specs.Prelude.{drop};
ghost use Rattle.dwz_unit.specs.Found.{StandsIn};
ghost use Rattle.dwz_unit.specs.RowViews.{in_row};
ghost use Rattle.dwz_unit.specs.Tails.{FindsFirst, tail_in};

use crate::joined_table::TableInRow;
use crate::joined_tables::JoinedTables;
use crate::numbered::Numbered;
use crate::tail::Tail;

/// The end of one of these tables.
#[derive(Clone, Copy)]
pub(crate) struct TableTail<'t> {
    pub joined: &'t JoinedTables<'t>,
    pub tail: Tail,
    /// The table with its own declarations. They hold most codes that are looked up, so they are at hand.
    pub own: TableInRow<'t>,
    ghost first: { FindsFirst (drop tail.skip (in_row own).table) (tail_in joined.now.tables tail) },
    ghost stands: { StandsIn joined.now.decls (in_row own) },
}

impl<'t> TableTail<'t> {
    ghost use Rattle.dwz_def_reading.specs.Abbrevs.{find_decl};
    ghost use Rattle.dwz_unit.specs.Found.{Finds};
    ghost use Rattle.dwz_unit.specs.TailViews.{tail_view};

    /// The declaration with a code. None exactly where the end of the table has none.
    #[inline(always)]
    pub fn find(self, code: u64) -> Option<Numbered<'t>>
        ensures { Finds self.entry.joined.now.decls (find_decl (tail_view self.entry) code) result }
    {
        if let Some(found) = self.own.own(self.tail.skip, code) {
            return Some(found);
        }
        self.joined.find(self.tail, code)
    }
}
