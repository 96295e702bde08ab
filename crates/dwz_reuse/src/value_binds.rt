//! Values that bind the top that they stand in.

ghost use Rattle.std.specs.Prelude.{◌≡◌, ℕ, ◌≤◌, List, Ok, drop, IfOk};
ghost use Rattle.dwz_def_tops.specs.Alike;
ghost use Rattle.dwz_def_tops.specs.Alike.{attr_binds};
ghost use Rattle.dwz_def_tops.specs.Spots.{EntryName, Top};
ghost use Rattle.dwz_def_reading.specs.Documents.{Value, attr_map};
ghost use Rattle.dwz_def_reading.specs.Classes;
ghost use Rattle.dwz_def_reading.specs.Meanings.{MeaningContext};
ghost use Rattle.dwz_def_reading.specs.Meant.{attr_with, meaning};
ghost use Rattle.dwz_graph.specs.Named.{value_refs};
ghost use Rattle.dwz_graph.specs.Names.{top_in};
ghost use Rattle.dwz_graph.specs.Resolved.{stored};
ghost use Rattle.dwz_move.specs.Bound;
ghost use Rattle.dwz_move.specs.Bound.{AreInto, HasTops};

use crate::expressions::has_address;
use dwz_codes::class_of;
use dwz_expr::Operand;
use dwz_forms::{Raw, is_binding};
use dwz_model::{NoMemory, Pair, at_or};
use dwz_move::TopRange;
use dwz_unit::{is_entry, is_expression};

// Whether a reference into that top, or into none, leaves the unit of these tops.
fn leaves(own: &TopRange, into: Option<u32>) -> bool
    ensures { (tops : List Top) (unit : ℕ) (s : EntryName) → HasTops tops unit own.now → into ≡ top_in s
        → result ≡ Alike.leaves tops unit s }
{
    match into {
        None => true,
        Some(top) => top < own.first || top >= own.end,
    }
}

/// Whether what a value says binds the top that it stands in, which is one of these of its unit. The tops that references go into are given
/// from `next` on. The value ends at that place.
pub(crate) fn value_binds(
    own: &TopRange,
    into: &[Option<u32>],
    next: usize,
    end: u64,
    pair: &Pair,
    raw: &Raw,
    operands: &mut Vec<Operand>,
) -> Result<bool, NoMemory>
    ensures { (s : MeaningContext ℕ) (at : ℕ) (v : Value ℕ) (tops : List Top) (unit : ℕ) (name : ℕ → EntryName) → HasTops tops unit own.now
        → meaning s (stored at end pair.now raw.now) ≡ Ok v → AreInto name (drop next into.now) (value_refs v)
        → IfOk result (λ b. b ≡ attr_binds tops unit (attr_map name (attr_with (stored at end pair.now raw.now) v))) }
{
    if is_binding(pair.form) {
        return Ok(true);
    }
    let class = class_of(pair.form);
    if is_entry(class) {
        return Ok(leaves(own, at_or(into, next, None)));
    }
    if !is_expression(class) {
        return Ok(false);
    }
    let address = has_address(raw, end, operands)?;
    Ok(address || !operands.is_empty())
}

/// How many entries a value of that form names, if it doesn't bind.
pub(crate) fn count_of(form: u64) -> usize
    ensures few { result ≤ 1 }
    ensures count { result ≡ Bound.count_of (Classes.class_of form) }
{
    if is_entry(class_of(form)) { 1 } else { 0 }
}
