//! How many entries values name, as far as forms tell.

ghost use Rattle.std.specs.Prelude.{◌≡◌, IfOk, count_by, map};
ghost use Rattle.std.specs.List.{list_any};
ghost use Rattle.dwz_def_reading.specs.Classes;
ghost use Rattle.dwz_unit.specs.Named as Specs;
ghost use Rattle.dwz_unit.specs.Named.{names_entry};

use crate::flat_rows::PairRows;
use dwz_codes::{Class, DW_AT_SIBLING, class_of};
use dwz_model::{NoMemory, Pair};
use std::alloc::Global;

/// Whether a value of the class is an entry.
#[inline(always)]
pub fn is_entry(class: Class) -> bool
    ensures { result ≡ Specs.is_entry class }
{
    match class {
        Class::UnitEntry => true,
        Class::InfoEntry => true,
        Class::CommonEntry => true,
        _ => false,
    }
}

/// Whether a value of the class is an expression.
#[inline(always)]
pub fn is_expression(class: Class) -> bool
    ensures { result ≡ Specs.is_expression class }
{
    match class {
        Class::Expression => true,
        _ => false,
    }
}

fn names_an_entry(pair: &Pair) -> bool
    ensures { result ≡ names_entry pair.now }
{
    pair.name != DW_AT_SIBLING && is_entry(class_of(pair.form))
}

fn any_expression(pairs: &[Pair]) -> bool
    ensures { result ≡ list_any (λ p. Specs.is_expression (Classes.class_of p.form)) pairs.now }
{
    pairs.iter().any(|pair| is_expression(class_of(pair.form)))
}

fn count_entries(pairs: &[Pair]) -> usize
    ensures { result ≡ count_by names_entry pairs.now }
{
    pairs.iter().filter(|pair| names_an_entry(pair)).count()
}

// How many entries values of these names and forms name. None where one of them is an expression.
fn named_count(pairs: &[Pair]) -> Option<usize>
    ensures { result ≡ Specs.named_count pairs.now }
{
    if any_expression(pairs) {
        return None;
    }
    Some(count_entries(pairs))
}

/// The same of each of these declarations.
pub(crate) fn named_counts(alloc: Global, decls: &PairRows) -> Result<Vec<Option<usize>>, NoMemory>
    ensures { IfOk result (λ v. v.items ≡ map Specs.named_count decls.now) }
{
    let mut counts = Vec::with_capacity(alloc, decls.len())?;
    for number in 0..decls.len() {
        counts.push(named_count(decls.get(number)))?;
    }
    Ok(counts)
}
