//! What is written of a unit that is kept.
ghost use Rattle.std.specs.Prelude.{◌≡◌, ℕ, ◌+◌, ◌<◌, ◌≤◌, ◌^◌, ◌++◌, ◌∷◌, ◌&&◌, length, min, OnOk};
ghost use Rattle.dwz_def_tops.specs.Deciding.{same_bool};
ghost use Rattle.dwz_def_tops.specs.Spots.{EntryName, Row};
ghost use Rattle.dwz_def_images.specs.Plan.{pinned_first, row_staying};
ghost use Rattle.dwz_layout_items.specs.Lines.{line, lines, row_lines};
ghost use Rattle.dwz_layout_items.specs.Order.{Names, import_lines, order_lines};
ghost use Rattle.dwz_layout_items.specs.Outline.{ShowsRow, View};
ghost use Rattle.dwz_layout_items.specs.Parts.{part_lines};

use crate::order::{Item, ItemKind, Outer};
use dwz_model::NoMemory;

// Whether it stays, and is pinned or not as asked.
#[inline(always)]
fn is_wanted(outer: &Outer, pinned: bool) -> bool
    ensures { result ≡ (outer.now.stays && same_bool outer.now.pinned pinned) }
{
    outer.stays && outer.pinned == pinned
}

// A number, or how many there are, where these are fewer.
#[inline(always)]
fn at_most(number: u32, count: usize) -> usize
    ensures is { result ≡ min number count }
    ensures within { result ≤ count }
{
    (number as usize).min(count)
}

// Appends, of what stands in a root or a space, what stays: what is pinned, or all else, as asked; and in each space first what is
// pinned.
fn put_part(
    order: &mut Vec<Item>,
    outers: &[Outer],
    depth: u32,
    pinned: bool,
) -> Result<(), NoMemory>
    requires { depth + length outers.now < 2 ^ 32 }
    ensures { (v : View) (row : Row) → ShowsRow v row outers.now
        → OnOk result (order_lines v.names order.new.items ≡ order_lines v.names order.old.items ++ part_lines v depth pinned row) }
{
    let mut left = outers;
    'outers: while let Some((outer, behind)) = left.split_first() {
        let (inner, next) = behind.split_at(at_most(outer.inside, behind.len()));
        if is_wanted(outer, pinned) {
            order.push(Item {
                what: outer.what,
                depth,
            })?;
            put_part(order, inner, depth + 1, true)?;
            put_part(order, inner, depth + 1, false)?;
        }
        left = next;
    }
    Ok(())
}

// Appends imports of the partial units with these numbers.
fn put_imports(order: &mut Vec<Item>, imports: &[u32]) -> Result<(), NoMemory>
    ensures { (names : Names EntryName) → OnOk result (order_lines names order.new.items ≡ order_lines names order.old.items
        ++ import_lines names imports.now) }
{
    for part in imports {
        order.push(Item {
            what: ItemKind::Import(*part),
            depth: 2,
        })?;
    }
    Ok(())
}

/// Appends what is written of a compile unit that is kept: its root; below that, of the tops and spaces of the unit, those that stay,
/// what is pinned first, in each space too; and imports of the partial units with these numbers, in that order.
pub fn put_kept(order: &mut Vec<Item>, outers: &[Outer], imports: &[u32]) -> Result<(), NoMemory>
    requires { length outers.now + 2 < 2 ^ 32 }
    ensures { (v : View) (row : Row) → ShowsRow v row outers.now
        → OnOk result (order_lines v.names order.new.items ≡ order_lines v.names order.old.items
        ++ (line 1 v.names.root ∷ row_lines v.image 2 (pinned_first v.pinned (row_staying v.gone row))
        ++ import_lines v.names imports.now)) }
{
    order.push(Item {
        what: ItemKind::Root,
        depth: 1,
    })?;
    put_part(order, outers, 2, true)?;
    put_part(order, outers, 2, false)?;
    put_imports(order, imports)?;
    Ok(())
}

/// Appends what is written of a unit all of whose entries stay where they are: a type unit, or a unit of a file of which nothing
/// moves.
pub fn put_whole(order: &mut Vec<Item>) -> Result<(), NoMemory>
    ensures { (names : Names EntryName) → OnOk result (order_lines names order.new.items ≡ order_lines names order.old.items
        ++ (line 1 names.root ∷ lines 2 names.whole)) }
{
    order.push(Item {
        what: ItemKind::Whole,
        depth: 1,
    })?;
    Ok(())
}
