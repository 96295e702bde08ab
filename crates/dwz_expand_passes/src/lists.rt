//! Location lists (DWARF 5, 2.6.2): whether the entries that they name have copies.

ghost use Rattle.std.specs.Prelude.{◌≡◌, ℕ, ◌+◌, true, None, Ok, Some, map};
ghost use Rattle.dwz_def_reading.specs.Documents.{Value};
ghost use Rattle.dwz_def_reading.specs.Entries.{RawAttr};
ghost use Rattle.dwz_def_reading.specs.Exprs.{first_unnamed};
ghost use Rattle.dwz_def_reading.specs.LocLists.{LocList};
ghost use Rattle.dwz_def_reading.specs.Meanings.{target_of, targets};
ghost use Rattle.dwz_def_reading.specs.Meant.{list_meaning, list_read};
ghost use Rattle.dwz_def_reading.specs.Shared.{operands_of};
ghost use Rattle.dwz_def_reading.specs.Texts;
ghost use Rattle.dwz_graph.specs.Operands.{is_named};
ghost use Rattle.dwz_expand_passes.specs.Copied.{Checks, FirstLost, operand_places};
ghost use Rattle.dwz_expand_passes.specs.Known.{Fits, IsReady, Setting, scope};
ghost use Rattle.dwz_expand_passes.specs.Refusing.{FirstIs};

use crate::files::SourceEntry;
use crate::named::copy_or;
use dwz_expr::Operand;
use dwz_graph::{entry_of, slot};
use dwz_lists::walk_into;
use dwz_model::{DEBUG_LOCLISTS, ReadErr};

// The entry that an operand names has a copy.
fn check_operand(x: &SourceEntry, operand: &Operand) -> Result<(), ReadErr>
    requires { IsReady x.now }
    ensures { (q : Setting) → Fits x.now q → is_named (scope q) operand.now ≡ true
        → Checks q (q.place (target_of (scope q) operand.now)) operand.now.at result }
{
    match entry_of(x.file.units, x.file.sections, x.here, operand) {
        Some(entry) => {
            copy_or(x, entry, DEBUG_LOCLISTS, operand.at)?;
            Ok(())
        }
        None => Ok(()),
    }
}

// Each entry that operands name has one. Refused at the first that has none.
fn check_operands(x: &SourceEntry, operands: &[Operand]) -> Result<(), ReadErr>
    requires { IsReady x.now }
    ensures { (q : Setting) (at : ℕ) → Fits x.now q → first_unnamed (is_named (scope q)) operands.now ≡ None
        → FirstIs (FirstLost q (operand_places 7 operands.now at) (map q.place (targets (scope q) operands.now))) result }
{
    for operand in operands {
        check_operand(x, operand)?;
    }
    Ok(())
}

/// The same of the operands of the location list at a place of `.debug_loclists`.
pub(crate) fn check_list_at(
    x: &SourceEntry,
    place: u128,
    read: &mut Vec<Operand>,
) -> Result<(), ReadErr>
    requires { IsReady x.now }
    ensures { (q : Setting) (a : RawAttr) (v : Value ℕ) (l : LocList) (at : ℕ) → Fits x.now q → list_meaning (scope q) a place ≡ Ok v
        → list_read (scope q) place ≡ Ok l
        → FirstIs (FirstLost q (operand_places 7 (operands_of l.exprs) at) (map q.place v.refs)) result }
{
    let sections = x.file.sections;
    let lists = sections.lists;
    read.clear();
    if place >= lists.len() as u128 {
        return Ok(());
    }
    match walk_into(read, lists, place as u64) {
        Err(ReadErr::NoMemory) => Err(ReadErr::NoMemory),
        Err(ReadErr::Refused(_fault)) => Ok(()),
        Ok(_end) => check_operands(x, read),
    }
}

/// The same of the list whose offset from a base stands in a slot behind the base (DWARF 5, 7.29).
pub(crate) fn check_list_by_slot(
    x: &SourceEntry,
    index: u128,
    read: &mut Vec<Operand>,
) -> Result<(), ReadErr>
    requires { IsReady x.now }
    ensures { (q : Setting) (a : RawAttr) (v : Value ℕ) (l : LocList) (at base offset : ℕ) → Fits x.now q → x.now.here.now.lists ≡ Some base
        → Texts.slot (scope q).around.sources.lists base index ≡ Some offset → list_meaning (scope q) a (base + offset) ≡ Ok v
        → list_read (scope q) (base + offset) ≡ Ok l
        → FirstIs (FirstLost q (operand_places 7 (operands_of l.exprs) at) (map q.place v.refs)) result }
{
    let sections = x.file.sections;
    let lists = sections.lists;
    let here = x.here;
    let Some(base) = here.lists else {
        return Ok(());
    };
    let Some(offset) = slot(lists, base as u128, index) else {
        return Ok(());
    };
    check_list_at(x, base as u128 + offset as u128, read)
}
