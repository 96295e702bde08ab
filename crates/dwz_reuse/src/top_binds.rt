//! Tops of a common file that their entries bind.

ghost use Rattle.std.specs.Prelude.{◌≡◌, ℕ, ◌+◌, ◌<◌, ◌≤◌, ◌^◌, ◌++◌, List, Ok, None, IfOk, length, map};
ghost use Rattle.dwz_check_index.specs.Both.{from_top};
ghost use Rattle.dwz_check_index.specs.Index.{IsCrossIndex, IsTopEntry, listed_units};
ghost use Rattle.dwz_check_labels.specs.FilesSaid.{IsFileSaid};
ghost use Rattle.dwz_def_check.specs.CrossNames.{CrossName, cross_names_from, cross_tops};
ghost use Rattle.dwz_def_cross.specs.Tops.{CrossTop};
ghost use Rattle.dwz_def_reading.specs.Documents.{DwUnit};
ghost use Rattle.dwz_def_reading.specs.Meanings.{Around};
ghost use Rattle.dwz_def_reading.specs.Meant.{units_meaning};
ghost use Rattle.dwz_def_reading.specs.Units.{entries_in};
ghost use Rattle.dwz_def_tops.specs.Spots.{EntryName, Top};
ghost use Rattle.dwz_reuse.specs.Binding.{AreBinding, tree_binds};
ghost use Rattle.dwz_move.specs.Bound.{HasTops};
ghost use Rattle.dwz_move.specs.Known.{KnowsRefs, tops_of_refs};
ghost use Rattle.dwz_unit.specs.Rows.{units_of};

use crate::entry_binds::entries_bind;
use dwz_check_index::{CrossIndex, TopEntry};
use dwz_expr::Operand;
use dwz_graph::File;
use dwz_model::NoMemory;
use dwz_move::TopRange;
use dwz_unit::Units;
use std::alloc::Global;

// Whether the entries of a top bind it, which is one of these of its unit. For each reference of the file is given the top that it goes
// into, and for each entry where its references begin.
fn top_binds(
    units: &Units,
    own: &TopRange,
    into: &[Option<u32>],
    starts: &[u32],
    top: &TopEntry,
    operands: &mut Vec<Operand>,
) -> Result<bool, NoMemory>
    requires { top.now.entry < entries_in (units_of units.now) }
    ensures { (around : Around ℕ) (refs : List ℕ) (name : ℕ → EntryName) (said : List (DwUnit ℕ)) (tops : List Top) (unit : ℕ)
        (names : List (ℕ × CrossName)) (n : ℕ) (t : CrossTop ℕ)
        → KnowsRefs around (units_of units.now) name refs starts.now into.now → units_meaning around (units_of units.now) ≡ Ok said
        → HasTops tops unit own.now → IsTopEntry said names (listed_units said) n top.now t
        → IfOk result (λ b. b ≡ tree_binds tops unit name t) }
{
    let end = units.entry(top.entry).end;
    entries_bind(units, own, into, starts, top.entry, end, operands)
}

/// Whether the entries of each top of a file that was read by itself bind it, as a finished common file is: in order, by its index. All
/// tops are of one unit, which has the tops of that range. For each reference of the file is given the top that it goes into.
pub(crate) fn tops_bind(
    alloc: Global,
    file: &File,
    index: &CrossIndex,
    own: &TopRange,
    into: &[Option<u32>],
) -> Result<Vec<bool>, NoMemory>
    requires { (said : List (DwUnit ℕ)) × (top : ℕ) × IsFileSaid file.now None said × IsCrossIndex (from_top top) said index.now }
    ensures { (said : List (DwUnit ℕ)) (top : ℕ) (name : ℕ → EntryName) (tops : List Top) (unit : ℕ) → IsFileSaid file.now None said
        → IsCrossIndex (from_top top) said index.now → into.now ≡ tops_of_refs name (units_of file.now.units) file.now.resolved.refs.items
        → HasTops tops unit own.now → IfOk result (λ flags. AreBinding tops unit name said flags.items) }
{
    let starts = file.resolved.starts.as_slice();
    let mut operands = Vec::new(alloc);
    let mut flags = Vec::new(alloc);
    for top in index.tops() {
        flags.push(top_binds(&file.units, own, into, starts, top, &mut operands)?)?;
    }
    Ok(flags)
}
