//! Looks into slices.

ghost use Rattle.std.specs.Prelude.{◌≡◌, slice_index_or};

/// The item at a place, or another one where there is none.
#[inline(always)]
pub fn at_or<T: Copy>(items: &[T], place: usize, other: T) -> T
    ensures { result ≡ slice_index_or items.now place other }
{
    match items.get(place) {
        Some(item) => *item,
        None => other,
    }
}
