//! Values whose length their form tells.

ghost use Rattle.std.specs.Prelude.{◌≡◌};
ghost use Rattle.dwz_forms.specs.FixedSizes as Specs;
ghost use Rattle.dwz_forms.specs.FormSets.{rows_of};

use crate::form_set::{FormSet, shape_among, written_shape};
use dwz_codes::Shape;

fn shape_size(shape: Shape) -> Option<usize>
    ensures { result ≡ Specs.shape_size shape }
{
    match shape {
        Shape::Nothing => Some(0),
        Shape::Fixed1 => Some(1),
        Shape::Fixed2 => Some(2),
        Shape::Fixed3 => Some(3),
        Shape::Fixed4 => Some(4),
        Shape::Fixed8 | Shape::Address => Some(8),
        Shape::Fixed16 => Some(16),
        _ => None,
    }
}

/// How many bytes a value of a form has, of the forms that are written, those that lead to a supplementary file among them. None where
/// that depends on the value, or the form isn't written.
pub fn fixed_size(form: u64) -> Option<usize>
    ensures { result ≡ Specs.fixed_size form }
{
    shape_size(written_shape(form))
}

/// The same, of the forms of a set.
#[inline(always)]
pub fn size_among(forms: FormSet, form: u64) -> Option<usize>
    ensures { result ≡ Specs.size_among (rows_of forms) form }
{
    shape_size(shape_among(forms, form))
}
