//! Expressions (DWARF 5, 2.5) and location lists (2.6.2): their pieces, with the places of entries.

ghost use Rattle.std.specs.Prelude.{◌≡◌, ℕ, ◌-◌, ◌<◌, ◌^◌, true, None, Some, Ok, IfOk, length, map, take, drop};
ghost use Rattle.std.specs.List.{list_any};
ghost use Rattle.dwz_def_reading.specs.Documents.{Value};
ghost use Rattle.dwz_def_reading.specs.Entries.{RawAttr};
ghost use Rattle.dwz_def_reading.specs.Exprs.{first_unnamed};
ghost use Rattle.dwz_def_reading.specs.LocLists.{LocList, list_at};
ghost use Rattle.dwz_def_reading.specs.Meanings;
ghost use Rattle.dwz_def_reading.specs.Meanings.{MeaningContext, entries_for, has, leads_to, loc_value, loclists_base, offset_of};
ghost use Rattle.dwz_def_reading.specs.Meant.{expr_meaning, list_from, list_meaning};
ghost use Rattle.dwz_def_reading.specs.Sequences.{read_from};
ghost use Rattle.dwz_def_reading.specs.Shared.{operands_of};
ghost use Rattle.dwz_graph.specs.Operands.{is_named};
ghost use Rattle.dwz_lists.specs.Gathering.{in_lists};
ghost use Rattle.dwz_model.specs.declared.place.Piece.TheVariants.{Raw};
ghost use Rattle.dwz_graph_view.specs.Settings.{KnowsSetting};
ghost use Rattle.dwz_graph_view.specs.PieceRows.{AreExprs, ArePieces};
ghost use Rattle.dwz_graph_view.specs.UnitViews.{place_in};
ghost use Rattle.dwz_graph_view.specs.ValueViews.{Shows};

use crate::setting::Setting;
use crate::value_views::ValueView;
use dwz_expr::{Operand, Ops, read_into};
use dwz_graph::slot;
use dwz_label_entries::{behind, front};
use dwz_lists::{walk, walk_into};
use dwz_model::{Base, Blob, DEBUG_INFO, Exprs, NoMemory, Piece, Pieces, Place, ReadErr};
use std::alloc::{AllocError, Global};

/// The place of an entry, by a number that is counted from the unit's first byte, or from the section's.
pub(crate) fn place_of(setting: &Setting, base: Base, number: u128) -> Option<Place>
    requires { number < 2 ^ 127 }
    ensures { (s : MeaningContext ℕ) → KnowsSetting setting.now s → has (leads_to s base number) (entries_for s base) ≡ true
        → result ≡ Some (place_in setting.now.file (s.around.place (leads_to s base number))) }
{
    let offset = match base {
        Base::Unit => setting.here.at as u128 + number,
        Base::Info => number,
    };
    if offset > u32::MAX as u128 {
        return None;
    }
    Some(Place {
        file: setting.file,
        offset: offset as u32,
    })
}

// A piece of these bytes.
fn same(alloc: Global, bytes: &[u8]) -> Result<Piece, NoMemory>
    ensures { IfOk result (λ piece. piece ≡ Raw bytes.now) }
{
    Ok(Piece::Raw(Blob::new(Vec::from_slice(alloc, bytes)?)))
}

// The pieces of an expression, whose first byte stands at a place, and each of whose operands names an entry.
fn pieces_of(
    setting: &Setting,
    bytes: &[u8],
    at: u64,
    operands: &[Operand],
) -> Result<Option<Pieces>, NoMemory>
    ensures { (s : MeaningContext ℕ) → KnowsSetting setting.now s → first_unnamed (is_named s) operands.now ≡ None
        → IfOk result (λ o. ArePieces setting.now.file s at bytes.now operands.now o) }
{
    let mut pieces = Vec::new(setting.alloc);
    let mut rest = bytes;
    let mut place = at as u128;
    for operand in operands {
        pieces.push(same(
            setting.alloc,
            front(rest, (operand.at as u128).saturating_sub(place)),
        )?)?;
        let Some(target) = place_of(setting, operand.base, operand.number as u128) else {
            return Ok(None);
        };
        pieces.push(Piece::Ref {
            place: target,
            width: operand.width,
            uleb: operand.uleb,
            base: operand.base,
        })?;
        let end = operand.at as u128 + operand.width as u128;
        rest = behind(rest, end.saturating_sub(place));
        place = end;
    }
    pieces.push(same(setting.alloc, rest)?)?;
    Ok(Some(Pieces::new(pieces)))
}

/// The expression whose bytes end at a place.
pub(crate) fn expr_view<'a>(
    setting: &Setting<'_, 'a>,
    bytes: &[u8],
    end: u32,
) -> Result<Option<ValueView<'a>>, NoMemory>
    requires { length bytes.now < 2 ^ 63 }
    ensures { (s : MeaningContext ℕ) (a : RawAttr) (v : Value ℕ) → KnowsSetting setting.now s → a.end ≡ end
        → Meanings.bytes_of a.raw ≡ bytes.now → expr_meaning s a ≡ Ok v → IfOk result (λ o. Shows setting.now.file v o) }
{
    let at = (end as u64).saturating_sub(bytes.len() as u64);
    let mut operands = Vec::new(setting.alloc);
    match read_into(&mut operands, bytes, at, DEBUG_INFO) {
        Err(ReadErr::NoMemory) => Err(AllocError),
        Err(ReadErr::Refused(_fault)) => Ok(None),
        Ok(address) => {
            let Some(pieces) = pieces_of(setting, bytes, at, &operands)? else {
                return Ok(None);
            };
            Ok(Some(ValueView::Expr { pieces, address }))
        }
    }
}

// The pieces of each of several expressions.
fn exprs_of(setting: &Setting, exprs: &[Ops<'_>]) -> Result<Option<Exprs>, NoMemory>
    ensures { (s : MeaningContext ℕ) → KnowsSetting setting.now s → first_unnamed (is_named s) (operands_of exprs.now) ≡ None
        → IfOk result (λ o. AreExprs setting.now.file s exprs.now o) }
{
    let mut shown = Vec::new(setting.alloc);
    for expr in exprs {
        let Some(pieces) = pieces_of(setting, expr.bytes(), expr.at(), expr.operands())? else {
            return Ok(None);
        };
        shown.push(pieces)?;
    }
    Ok(Some(Exprs::new(shown)))
}

// Whether one of several expressions has an address.
fn any_address(exprs: &[Ops<'_>]) -> bool
    ensures { result ≡ list_any (λ e. e.address) exprs.now }
{
    exprs.iter().any(|expr| expr.has_address())
}

// The location list at a place of `.debug_loclists`, whose operands name entries.
fn list_there<'a>(setting: &Setting<'_, 'a>, place: u64) -> Result<Option<ValueView<'a>>, NoMemory>
    requires { place < length setting.now.sections.now.lists.now }
    ensures { (s : MeaningContext ℕ) (l : LocList) → KnowsSetting setting.now s
        → read_from (list_at in_lists) setting.now.sections.now.lists.now place ≡ Ok l
        → first_unnamed (is_named s) (operands_of l.exprs) ≡ None → IfOk result (λ o. Shows setting.now.file (loc_value s l) o) }
{
    match walk(setting.alloc, setting.sections.lists, place) {
        Err(ReadErr::NoMemory) => Err(AllocError),
        Err(ReadErr::Refused(_)) => Ok(None),
        Ok(list) => {
            let address = any_address(list.exprs());
            let Some(exprs) = exprs_of(setting, list.exprs())? else {
                return Ok(None);
            };
            Ok(Some(ValueView::Loc { exprs, address }))
        }
    }
}

/// The location list at a place of `.debug_loclists`.
pub(crate) fn list_view<'a>(
    setting: &Setting<'_, 'a>,
    place: u128,
) -> Result<Option<ValueView<'a>>, NoMemory>
    ensures { (s : MeaningContext ℕ) (a : RawAttr) (v : Value ℕ) → KnowsSetting setting.now s → list_meaning s a place ≡ Ok v
        → IfOk result (λ o. Shows setting.now.file v o) }
{
    let lists = setting.sections.lists;
    if place >= lists.len() as u128 {
        return Ok(None);
    }
    let mut operands = Vec::new(setting.alloc);
    match walk_into(&mut operands, lists, place as u64) {
        Err(ReadErr::NoMemory) => Err(AllocError),
        Err(ReadErr::Refused(_fault)) => Ok(None),
        Ok(_end) => list_there(setting, place as u64),
    }
}

/// The location list whose offset from a base stands in a slot behind the base (7.29).
pub(crate) fn list_by_slot<'a>(
    setting: &Setting<'_, 'a>,
    index: u128,
) -> Result<Option<ValueView<'a>>, NoMemory>
    ensures { (s : MeaningContext ℕ) (a : RawAttr) (v : Value ℕ) → KnowsSetting setting.now s → index ≡ offset_of a
        → list_from s a (loclists_base s) ≡ Ok v → IfOk result (λ o. Shows setting.now.file v o) }
{
    let Some(base) = setting.here.lists else {
        return Ok(None);
    };
    let Some(offset) = slot(setting.sections.lists, base as u128, index) else {
        return Ok(None);
    };
    list_view(setting, base as u128 + offset as u128)
}
