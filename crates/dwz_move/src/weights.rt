//! What the entries of a file weigh, and its tops.

ghost use Rattle.std.specs.Prelude.{◌≡◌, ℕ, ◌+◌, ◌<◌, ◌≤◌, List, Option, nat_lt, IfOk};
ghost use Rattle.dwz_def_tops.specs.Spots.{EntryName, Top};
ghost use Rattle.dwz_def_reading.specs.Units.{entries_in};
ghost use Rattle.dwz_def_reading.specs.Documents.{DwUnit, Node, node_map};
ghost use Rattle.dwz_def_reading.specs.Meanings.{Around, MeaningContext};
ghost use Rattle.dwz_def_plan.specs.Groups;
ghost use Rattle.dwz_graph.specs.Rows.{AreRowsMeant, IsEntryMeant};
ghost use Rattle.dwz_move.specs.Known.{KnowsRefs};
ghost use Rattle.dwz_graph.specs.Standing.{StandsAt};
ghost use Rattle.dwz_move.specs.Weights.{capped, node_weight, rows_weight};
ghost use Rattle.dwz_unit.specs.Rows.{EntryRow, units_of};

use crate::declared::declared_weights;
use crate::weight::{HEAVY, add_weights, weight_alone, weight_of_entry};
use dwz_model::NoMemory;
use dwz_unit::{Declarations, Units};
use std::alloc::Global;
use std::marker::Model;

/// What the entries of a file weigh. Clauses see what they were read from.
#[derive(Drop)]
pub struct EntryWeights<'u, 'a> {
    units: &'u Units<'a>,
    declarations: Declarations<'u>,
    // For each declaration what the values of each of its entries weigh, if all weigh the same.
    declared: Vec<Option<u64>>,
}

impl<'u, 'a> Model for EntryWeights<'u, 'a> {
    ghost use Rattle.dwz_unit.specs.Rows.{Source, rows_of, units_of};

    ghost Value = { Source };

    ghost use Rattle.std.specs.Prelude.{◌≡◌, map};
    ghost use Rattle.dwz_unit.specs.Declarations.{AreOf};
    ghost use Rattle.dwz_move.specs.Weights.{pairs_weight};

    ghost view = { λ w. w.units.now };

    ghost invariant = { λ w. AreOf (rows_of (units_of w.units.now)) w.declarations × (w.declared.items ≡ map pairs_weight w.declarations.pairs) };
}

impl<'u, 'a> EntryWeights<'u, 'a> {
    /// Those of a file: what forms alone tell is found once for each declaration (DWARF 5, 7.5.3).
    pub fn new(alloc: Global, units: &'u Units<'a>) -> Result<EntryWeights<'u, 'a>, NoMemory>
        ensures { IfOk result (λ w. w ≡ units.now) }
    {
        let declarations = units.declarations();
        let declared = declared_weights(alloc, &declarations)?;
        Ok(EntryWeights {
            units,
            declarations,
            declared,
        })
    }

    // What an entry weighs itself, counted up to 64.
    #[inline(always)]
    fn of_entry(&self, i: u32) -> u64
        requires { i < entries_in (units_of self.now) }
        ensures { (s : MeaningContext ℕ) (numbers : List ℕ) (row : EntryRow) (d : Node ℕ) (name : ℕ → EntryName)
            → IsEntryMeant (units_of self.now) s i numbers row d → result ≡ capped (node_weight (nat_lt (i + 1) row.end) (node_map name d)) }
    {
        match self.declared[self.declarations.number(i)] {
            Some(weight) => add_weights(weight_alone(self.units, i), weight),
            None => weight_of_entry(self.units, i),
        }
    }

    // What the entries from one number to before another weigh together, counted up to 64.
    fn of_entries(&self, first: u32, end: u32) -> u64
        requires { end ≤ entries_in (units_of self.now) }
        ensures few { result ≤ 64 }
        ensures weight { (s : MeaningContext ℕ) (numbers : List ℕ) (rows after : List EntryRow) (ds : List (Node ℕ)) (name : ℕ → EntryName)
            → AreRowsMeant (units_of self.now) s first end numbers rows after ds → result ≡ capped (rows_weight name first rows ds) }
    {
        let mut weight = 0;
        for i in first..end {
            if weight == HEAVY {
                return weight;
            }
            weight = add_weights(weight, self.of_entry(i));
        }
        weight
    }

    /// About how many bytes the top takes whose entries are those from one number to before another. Where that is 64 or more, it is 64.
    pub fn top_weight(&self, first: u32, end: u32) -> u32
        requires { end ≤ entries_in (units_of self.now) }
        ensures { (around : Around ℕ) (refs starts : List ℕ) (into : List (Option ℕ)) (name : ℕ
            → EntryName) (said : List (DwUnit ℕ)) (file unit : ℕ)
            (t : Top) → KnowsRefs around (units_of self.now) name refs starts into
            → StandsAt around name (units_of self.now) said file unit t first end → result ≡ capped (Groups.top_weight t) }
    {
        self.of_entries(first, end) as u32
    }
}
