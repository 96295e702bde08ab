//! What declarations alone tell: what their entries weigh, and which bind.

ghost use Rattle.std.specs.Prelude.{◌≡◌, IfOk, map};
ghost use Rattle.dwz_move.specs.Bound;
ghost use Rattle.dwz_move.specs.Weights;

use crate::weight::{add_weights, set_weight};
use dwz_codes::{Class, DW_AT_SIBLING, Shape, class_of, form_shape, names_file};
use dwz_forms::is_binding;
use dwz_model::{NoMemory, Pair};
use dwz_unit::Declarations;
use std::alloc::Global;

// How many bytes a number of a shape has, whichever it is.
fn number_size(shape: Shape) -> Option<u64>
    ensures { result ≡ Weights.number_size shape }
{
    match shape {
        Shape::Nothing => Some(0),
        Shape::Fixed1 => Some(1),
        Shape::Fixed2 => Some(2),
        Shape::Fixed3 => Some(3),
        Shape::Fixed4 => Some(4),
        Shape::Fixed8 => Some(8),
        Shape::Address => Some(8),
        _ => None,
    }
}

// What each value of a class and a shape weighs, if all weigh the same.
fn form_weight(class: Class, file: bool, shape: Shape) -> Option<u64>
    ensures { result ≡ Weights.form_weight class file shape }
{
    match class {
        Class::Text => None,
        Class::Block => None,
        Class::Expression => None,
        _ => match set_weight(class, file) {
            Some(weight) => Some(weight),
            None => number_size(shape),
        },
    }
}

// The same of a name and a form.
fn pair_weight(pair: &Pair) -> Option<u64>
    ensures { result ≡ Weights.pair_weight pair.now }
{
    if pair.name == DW_AT_SIBLING {
        return Some(0);
    }
    form_weight(
        class_of(pair.form),
        names_file(pair.name),
        form_shape(pair.form),
    )
}

// What the values of each entry weigh that have these names and forms, counted up to 64, if all weigh the same.
fn pairs_weight(pairs: &[Pair]) -> Option<u64>
    ensures { result ≡ Weights.pairs_weight pairs.now }
{
    let mut weight = 0;
    for pair in pairs {
        let Some(more) = pair_weight(pair) else {
            return None;
        };
        weight = add_weights(weight, more);
    }
    Some(weight)
}

/// The same of each of these declarations.
pub(crate) fn declared_weights(
    alloc: Global,
    declarations: &Declarations,
) -> Result<Vec<Option<u64>>, NoMemory>
    ensures { IfOk result (λ v. v.items ≡ map Weights.pairs_weight declarations.now.pairs) }
{
    let mut weights = Vec::with_capacity(alloc, declarations.len())?;
    for number in 0..declarations.len() {
        weights.push(pairs_weight(declarations.pairs(number)))?;
    }
    Ok(weights)
}

// Whether each value of that name and form binds the top that it stands in.
#[inline(always)]
fn pair_binds(pair: &Pair) -> bool
    ensures { result ≡ Bound.pair_binds pair.now }
{
    pair.name != DW_AT_SIBLING && is_binding(pair.form)
}

// Whether one of these does.
fn pairs_bind(pairs: &[Pair]) -> bool
    ensures { result ≡ Bound.pairs_bind pairs.now }
{
    pairs.iter().any(|pair| pair_binds(pair))
}

/// The same of each of these declarations.
pub(crate) fn declared_binds(
    alloc: Global,
    declarations: &Declarations,
) -> Result<Vec<bool>, NoMemory>
    ensures { IfOk result (λ v. v.items ≡ map Bound.pairs_bind declarations.now.pairs) }
{
    let mut binds = Vec::with_capacity(alloc, declarations.len())?;
    for number in 0..declarations.len() {
        binds.push(pairs_bind(declarations.pairs(number)))?;
    }
    Ok(binds)
}
