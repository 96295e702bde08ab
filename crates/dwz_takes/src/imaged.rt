//! Which top of the common file each top of a unit is taken as: the least of its class in the partial units that the unit takes.

ghost use Rattle.std.specs.Prelude.{◌≡◌, ℕ, ◌<◌, ◌++◌, List, Option, None, IfOk, length, slice_index, slice_index_or, []};
ghost use Rattle.std.specs.List.{flat_map};
ghost use Rattle.dwz_model.specs.Lists.{In};
ghost use Rattle.dwz_takes.specs.Images.{AreApart, AreImages, AreImagesOf, AreLeast, AreNone, ArePut, IsLesser, choice_at};
ghost use Rattle.dwz_takes.specs.Takes.{AreRows, AreTaken, AreTakes, list_at};

use crate::rows::Rows;
use dwz_model::{DwzList, NoMemory, Numbers};
use std::alloc::Global;

// The lesser of a number, if there is one, and another.
fn lesser(first: Option<u32>, top: u32) -> u32
    ensures { IsLesser first top result }
{
    match first {
        Some(number) if number < top => number,
        _ => top,
    }
}

// Looks at some tops more: under each class stands the least that was seen.
fn see(firsts: &mut [Option<u32>], classes: &[u32], tops: &[u32])
    requires tops { (t : ℕ) → In t tops.now → t < length classes.now }
    requires classes { (t : ℕ) → In t tops.now → slice_index classes.now t < length firsts.old }
    ensures { (seen : List ℕ) → AreLeast classes.now seen firsts.old → AreLeast classes.now (seen ++ tops.now) firsts.new }
{
    for top in tops {
        let class = classes[*top as usize] as usize;
        firsts[class] = Some(lesser(firsts[class], *top));
    }
}

// Looks at the tops of some partial units, where none was seen before.
fn see_parts(firsts: &mut [Option<u32>], rows: &Rows, parts: &[u32])
    requires rows { AreRows rows.now }
    requires len { length firsts.old ≡ length rows.now.classes }
    requires parts { (p : ℕ) → In p parts.now → p < length rows.now.part_tops }
    requires none { AreNone firsts.old }
    ensures { AreLeast rows.now.classes (flat_map (list_at rows.now.part_tops) parts.now) firsts.new }
{
    for part in parts {
        see(
            firsts,
            rows.classes.as_slice(),
            rows.part_tops.get(*part as usize),
        );
    }
}

// Gives each of these tops what stands under its class.
fn put(images: &mut [Option<u32>], firsts: &[Option<u32>], classes: &[u32], tops: &[u32])
    requires tops { (t : ℕ) → In t tops.now → t < length classes.now }
    requires classes { (t : ℕ) → In t tops.now → slice_index classes.now t < length firsts.now }
    requires len { length images.old ≡ length classes.now }
    ensures { ArePut classes.now tops.now firsts.now images.old images.new }
{
    for top in tops {
        images[*top as usize] = firsts[classes[*top as usize] as usize];
    }
}

// Forgets what was seen, which was of the classes of these tops.
fn forget(firsts: &mut [Option<u32>], classes: &[u32], tops: &[u32])
    requires tops { (t : ℕ) → In t tops.now → t < length classes.now }
    requires classes { (t : ℕ) → In t tops.now → slice_index classes.now t < length firsts.old }
    requires only { (k : ℕ) → ((t : ℕ) → In t tops.now → slice_index classes.now t ≡ k → ⊥) → choice_at firsts.old k ≡ None }
    ensures { AreNone firsts.new }
{
    for top in tops {
        firsts[classes[*top as usize] as usize] = None;
    }
}

// Gives the tops of a unit their images, by the partial units that it takes. Nothing is seen before and after.
fn put_unit(
    images: &mut [Option<u32>],
    firsts: &mut [Option<u32>],
    rows: &Rows,
    parts: &[u32],
    unit: usize,
)
    requires rows { AreRows rows.now }
    requires unit { unit < length rows.now.unit_tops }
    requires parts { AreTaken rows.now unit parts.now }
    requires images { length images.old ≡ length rows.now.classes }
    requires len { length firsts.old ≡ length rows.now.classes }
    requires none { AreNone firsts.old }
    ensures none { AreNone firsts.new }
    ensures images { AreImagesOf rows.now unit images.new }
    ensures kept { (t : ℕ) → (In t (list_at rows.now.unit_tops unit) → ⊥) → choice_at images.new t ≡ choice_at images.old t }
{
    let classes = rows.classes.as_slice();
    let tops = rows.unit_tops.get(unit);
    see_parts(firsts, rows, parts);
    put(images, firsts, classes, tops);
    forget(firsts, classes, tops);
}

/// For each top its image, if it has one: the first top that is alike to it in the partial units that its unit takes.
pub fn images(
    alloc: Global,
    rows: &Rows,
    takes: &[Numbers],
) -> Result<DwzList<Option<u32>>, NoMemory>
    requires rows { AreRows rows.now }
    requires apart { AreApart rows.now }
    requires takes { AreTakes rows.now takes.now }
    ensures { IfOk result (λ images. AreImages rows.now images) }
{
    let mut images = vec![in alloc; None; rows.classes.len()]?;
    let mut firsts = vec![in alloc; None; rows.classes.len()]?;
    for (unit, parts) in takes.iter().enumerate() {
        put_unit(
            images.as_mut_slice(),
            firsts.as_mut_slice(),
            rows,
            parts.as_slice(),
            unit,
        );
    }
    Ok(DwzList::new(images))
}
