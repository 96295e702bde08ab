//! The tops and spaces of units, one by one, in order of entry.

ghost use Rattle.std.specs.Prelude.{◌≡◌, ℕ, ◌+◌, ◌<◌, ◌≤◌, ◌^◌, ◌++◌, ◌∷◌, [], ◌||◌, ◌&&◌, List, length, IfOk, OnOk};
ghost use Rattle.dwz_def_reading.specs.Entries.{RawEntry};
ghost use Rattle.dwz_def_reading.specs.Trees.{Forest};
ghost use Rattle.dwz_graph.specs.Building.{HasList, IsList};
ghost use Rattle.dwz_graph.specs.Spaces.{stored_space};
ghost use Rattle.dwz_layout_items.specs.declared.order.Outer.{Outer};
ghost use Rattle.dwz_layout_order.specs.Outline.{HasRoom, behind_list, behind_space, behind_top, closed, outers_in, pinned_in, space_opened};
ghost use Rattle.dwz_layout_order.specs.Outline.{top_outer};
ghost use Rattle.dwz_unit.specs.Rows.{units_of};

use crate::marks::Marks;
use dwz_graph::is_space;
use dwz_layout_items::{ItemKind, Outer};
use dwz_model::NoMemory;
use dwz_unit::Units;

/// The numbers of the next top and of the next space.
#[derive(Clone, Copy, Debug, PartialEq, Eq)]
pub struct Next {
    pub top: u32,
    pub space: u32,
}

// Whether one of two holds.
#[inline(always)]
fn either(one: bool, other: bool) -> bool
    ensures { result ≡ (one || other) }
{
    one || other
}

// Appends the next top. Answers whether it stays and is pinned.
fn put_top(outers: &mut Vec<Outer>, next: &mut Next, marks: &Marks) -> Result<bool, NoMemory>
    requires { next.old.top + 1 < 2 ^ 32 }
    ensures outers { OnOk result (outers.new.items ≡ outers.old.items ++ top_outer marks.now next.old.top ∷ []) }
    ensures next { OnOk result (next.new ≡ behind_top next.old) }
    ensures pinned { IfOk result (λ b. let x = top_outer marks.now next.old.top in b ≡ (x.stays && x.pinned)) }
{
    let mark = marks.top(next.top);
    outers.push(Outer {
        what: ItemKind::Top(next.top),
        inside: 0,
        stays: mark.stays,
        pinned: mark.pinned,
    })?;
    next.top += 1;
    Ok(mark.stays && mark.pinned)
}

// Appends the next space, without what is in it. Answers where it stands.
fn open(outers: &mut Vec<Outer>, next: &mut Next, marks: &Marks) -> Result<usize, NoMemory>
    requires { next.old.space + 1 < 2 ^ 32 }
    ensures outers { OnOk result (outers.new.items ≡ outers.old.items ++ space_opened marks.now next.old.space ∷ []) }
    ensures next { OnOk result (next.new ≡ behind_space next.old) }
    ensures place { IfOk result (λ at. at ≡ length outers.old.items) }
{
    let at = outers.len();
    outers.push(Outer {
        what: ItemKind::Space(next.space),
        inside: 0,
        stays: true,
        pinned: marks.space(next.space),
    })?;
    next.space += 1;
    Ok(at)
}

// All that is behind the space at a place is in it, and something that is pinned stays there, or nothing. Answers whether the space is
// pinned.
fn close(outers: &mut Vec<Outer>, at: usize, pinned: bool) -> bool
    requires there { at < length outers.old.items }
    requires few { length outers.old.items < 2 ^ 32 + at }
    ensures outers { (before inner : List Outer) (x : Outer) → outers.old.items ≡ before ++ (x ∷ inner) → at ≡ length before
        → outers.new.items ≡ before ++ (closed x (length inner) pinned ∷ inner) }
    ensures is { (before inner : List Outer) (x : Outer) → outers.old.items ≡ before ++ (x ∷ inner) → at ≡ length before
        → result ≡ (x.pinned || pinned) }
{
    let mut outer = outers[at];
    outer.inside = (outers.len() - at - 1) as u32;
    outer.pinned = either(outer.pinned, pinned);
    outers[at] = outer;
    outer.pinned
}

/// Appends the tops and spaces among the entries of a list below the root of a compile unit, or below a space of it, in order, with
/// what is in the spaces. Answers whether one of them is pinned, and stays.
pub(crate) fn put_list(
    outers: &mut Vec<Outer>,
    next: &mut Next,
    units: &Units,
    marks: &Marks,
    first: u32,
    end: u32,
) -> Result<bool, NoMemory>
    requires rows { HasList (units_of units.now) first end }
    requires room { HasRoom next.old first end }
    ensures outers { (list : Forest RawEntry) → IsList (units_of units.now) first end list
        → OnOk result (outers.new.items ≡ outers.old.items ++ outers_in stored_space marks.now next.old list) }
    ensures next { (list : Forest RawEntry) → IsList (units_of units.now) first end list
        → OnOk result (next.new ≡ behind_list stored_space list next.old) }
    ensures pinned { (list : Forest RawEntry) → IsList (units_of units.now) first end list
        → IfOk result (λ b. b ≡ pinned_in stored_space marks.now next.old list) }
    ensures few { OnOk result (length outers.new.items + first ≤ length outers.old.items + end) }
{
    let mut entry = first;
    let mut pinned = false;
    while entry < end {
        let behind = units.entry(entry).end;
        if is_space(units, entry) {
            let at = open(outers, next, marks)?;
            let inner = put_list(outers, next, units, marks, entry + 1, behind)?;
            let found = close(outers, at, inner);
            pinned = either(pinned, found);
        } else {
            let found = put_top(outers, next, marks)?;
            pinned = either(pinned, found);
        }
        entry = behind;
    }
    Ok(pinned)
}
