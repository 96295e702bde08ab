//! Which entries have a value of which it has to be asked whether it stays: their declarations tell.

ghost use Rattle.std.specs.Prelude.{◌≡◌, ℕ, ◌<◌, false, List, Some, length, map, slice_get, IfOk};
ghost use Rattle.std.specs.List.{list_any};
ghost use Rattle.dwz_graph_pruning.specs.Stays;
ghost use Rattle.dwz_graph_pruning.specs.Stays.{asks};
ghost use Rattle.dwz_model.specs.declared.place.Pair.{Pair};
ghost use Rattle.dwz_unit.specs.Declarations.{AreOf};
ghost use Rattle.dwz_unit.specs.Rows.{rows_of, units_of};

use crate::values::asks;
use dwz_model::{NoMemory, Pair};
use dwz_unit::{Declarations, Units};
use std::alloc::Global;
use std::marker::Model;

/// Whether it has to be asked of a value of these names and forms.
#[inline(always)]
pub(crate) fn any_asks(strp: bool, pairs: &[Pair]) -> bool
    ensures { result ≡ list_any (Stays.asks strp) pairs.now }
{
    pairs.iter().any(|pair| asks(strp, pair))
}

// Of each of these declarations whether it has to be asked of one of its values, where no format of the line table has the form strp.
fn asked_by(alloc: Global, declarations: &Declarations) -> Result<Vec<bool>, NoMemory>
    ensures { IfOk result (λ v. v.items ≡ map (list_any (Stays.asks false)) declarations.now.pairs) }
{
    let mut asked = Vec::with_capacity(alloc, declarations.len())?;
    for number in 0..declarations.len() {
        asked.push(any_asks(false, declarations.pairs(number)))?;
    }
    Ok(asked)
}

/// The entries of a file, by their declarations (DWARF 5, 7.5.3), of which a value has to be asked where no format of the line table has the
/// form strp.
#[derive(Drop)]
pub(crate) struct AskedEntries<'u> {
    declarations: Declarations<'u>,
    asked: Vec<bool>,
}

impl<'u> Model for AskedEntries<'u> {
    ghost use Rattle.std.specs.Prelude.{◌≡◌, false, map};
    ghost use Rattle.std.specs.List.{list_any};
    ghost use Rattle.dwz_graph_pruning.specs.Stays.{asks};
    ghost use Rattle.dwz_unit.specs.Declarations.{Declarations};

    ghost Value = { Declarations };

    ghost view = { λ e. e.declarations };

    ghost invariant = { λ e. e.asked.items ≡ map (list_any (asks false)) e.declarations.pairs };
}

impl<'u> AskedEntries<'u> {
    /// Those of a file.
    pub(crate) fn new(alloc: Global, units: &'u Units) -> Result<AskedEntries<'u>, NoMemory>
        ensures { IfOk result (λ e. AreOf (rows_of (units_of units.now)) e) }
    {
        let declarations = units.declarations();
        let asked = asked_by(alloc, &declarations)?;
        Ok(AskedEntries {
            declarations,
            asked,
        })
    }

    /// Whether the entry with that number is one of them.
    #[inline(always)]
    pub(crate) fn has(&self, entry: u32) -> bool
        requires { entry < length self.now.numbers }
        ensures { (n : ℕ) (pairs : List Pair) → slice_get self.now.numbers entry ≡ Some n → slice_get self.now.pairs n ≡ Some pairs
            → result ≡ list_any (asks false) pairs }
    {
        self.asked[self.declarations.number(entry)]
    }
}
