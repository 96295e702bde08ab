//! Which entries of a file bind the top that they stand in, as far as forms tell, and which of its tops their entries bind.

ghost use Rattle.std.specs.Prelude.{◌≡◌, ℕ, ◌<◌, ◌≤◌, List, Option, Some, slice_get, IfOk};
ghost use Rattle.dwz_def_tops.specs.Alike;
ghost use Rattle.dwz_def_tops.specs.Alike.{any_in};
ghost use Rattle.dwz_def_tops.specs.Spots.{EntryName, Top};
ghost use Rattle.dwz_def_reading.specs.Units.{entries_in};
ghost use Rattle.dwz_def_reading.specs.Documents.{DwUnit};
ghost use Rattle.dwz_def_reading.specs.Meanings.{Around};
ghost use Rattle.dwz_move.specs.Bound;
ghost use Rattle.dwz_move.specs.Bound.{HasTops};
ghost use Rattle.dwz_move.specs.Known.{KnowsRefs};
ghost use Rattle.dwz_graph.specs.Standing.{StandsAt};
ghost use Rattle.dwz_unit.specs.Known.{pairs_of};
ghost use Rattle.dwz_unit.specs.Rows.{EntryRow, rows_of, units_of};

use crate::bind::TopRange;
use crate::declared::declared_binds;
use crate::tops::entries_bind;
use dwz_expr::Operand;
use dwz_model::NoMemory;
use dwz_unit::{Declarations, Units};
use std::alloc::Global;
use std::marker::Model;

/// Which entries of a file bind the top that they stand in. Clauses see what they were read from.
#[derive(Drop)]
pub struct EntryBinds<'u, 'a> {
    units: &'u Units<'a>,
    declarations: Declarations<'u>,
    // For each declaration whether each of its entries binds, by a form of its values.
    declared: Vec<bool>,
}

impl<'u, 'a> Model for EntryBinds<'u, 'a> {
    ghost use Rattle.dwz_unit.specs.Rows.{Source, rows_of, units_of};

    ghost Value = { Source };

    ghost use Rattle.std.specs.Prelude.{◌≡◌, map};
    ghost use Rattle.dwz_unit.specs.Declarations.{AreOf};
    ghost use Rattle.dwz_move.specs.Bound.{pairs_bind};

    ghost view = { λ b. b.units.now };

    ghost invariant = { λ b. AreOf (rows_of (units_of b.units.now)) b.declarations × (b.declared.items ≡ map pairs_bind b.declarations.pairs) };
}

impl<'u, 'a> EntryBinds<'u, 'a> {
    /// Those of a file: what forms alone tell is found once for each declaration (DWARF 5, 7.5.3).
    pub fn new(alloc: Global, units: &'u Units<'a>) -> Result<EntryBinds<'u, 'a>, NoMemory>
        ensures { IfOk result (λ b. b ≡ units.now) }
    {
        let declarations = units.declarations();
        let declared = declared_binds(alloc, &declarations)?;
        Ok(EntryBinds {
            units,
            declarations,
            declared,
        })
    }

    /// Whether a form of the values of the entry with a number binds, whatever they are.
    #[inline(always)]
    pub(crate) fn by_form(&self, i: u32) -> bool
        requires { i < entries_in (units_of self.now) }
        ensures { (row : EntryRow) → slice_get (rows_of (units_of self.now)) i ≡ Some row → result ≡ Bound.pairs_bind (pairs_of row.entry) }
    {
        self.declared[self.declarations.number(i)]
    }

    /// Whether the entries of a top bind it: those from one number to before another. For each reference of the file is given the top that
    /// it goes into, and for each entry where its references begin; and which tops are of the same unit.
    pub fn top_binds(
        &self,
        own: &TopRange,
        into: &[Option<u32>],
        starts: &[u32],
        first: u32,
        end: u32,
        operands: &mut Vec<Operand>,
    ) -> Result<bool, NoMemory>
        requires { end ≤ entries_in (units_of self.now) }
        ensures { (around : Around ℕ) (refs : List ℕ) (name : ℕ
            → EntryName) (said : List (DwUnit ℕ)) (file unit : ℕ) (tops : List Top) (t : Top)
            → KnowsRefs around (units_of self.now) name refs starts.now into.now
            → StandsAt around name (units_of self.now) said file unit t first end → HasTops tops t.unit own.now
            → IfOk result (λ b. b ≡ any_in (Alike.entry_binds tops t.unit) t) }
    {
        entries_bind(self.units, self, own, into, starts, first, end, operands)
    }
}
