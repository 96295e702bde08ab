//! Up to where an entry has texts, as far as its declaration tells.

ghost use Rattle.std.specs.Prelude.{◌≡◌, ℕ, ◌<◌, List, Some, length, map, slice_get, IfOk};
ghost use Rattle.dwz_layout_numbers.specs.Befores.{is_pair_placed};
ghost use Rattle.dwz_model.specs.declared.place.Pair.{Pair};
ghost use Rattle.dwz_unit.specs.Declarations.{AreOf};
ghost use Rattle.dwz_unit.specs.Rows.{rows_of, units_of};
ghost use Rattle.dwz_encode_texts.specs.Texts;

use dwz_codes::{Class, DW_AT_SIBLING, class_of};
use dwz_model::{NoMemory, Pair};
use dwz_unit::{Declarations, Units};
use std::alloc::Global;
use std::marker::Model;

/// Whether a value of that name and form is a text that is stored by an offset or by a slot.
#[inline(always)]
pub(crate) fn is_text(pair: &Pair) -> bool
    ensures { result ≡ is_pair_placed pair.now }
{
    pair.name != DW_AT_SIBLING
        && match class_of(pair.form) {
            Class::TextInStr => true,
            Class::TextInLineStr => true,
            Class::TextBySlot => true,
            _ => false,
        }
}

// How many values of these names and forms there are up to the last text.
fn texts_end(pairs: &[Pair]) -> usize
    ensures { result ≡ Texts.texts_end pairs.now }
{
    let mut end = 0;
    for (k, pair) in pairs.iter().enumerate() {
        if is_text(pair) {
            end = k + 1;
        }
    }
    end
}

// The same of each of these declarations.
fn ends_of(alloc: Global, declarations: &Declarations) -> Result<Vec<usize>, NoMemory>
    ensures { IfOk result (λ v. v.items ≡ map Texts.texts_end declarations.now.pairs) }
{
    let mut ends = Vec::with_capacity(alloc, declarations.len())?;
    for number in 0..declarations.len() {
        ends.push(texts_end(declarations.pairs(number)))?;
    }
    Ok(ends)
}

/// Of the entries of a file, by their declarations (DWARF 5, 7.5.3), how many values stand up to the last text.
#[derive(Drop)]
pub(crate) struct TextEnds<'u> {
    declarations: Declarations<'u>,
    ends: Vec<usize>,
}

impl<'u> Model for TextEnds<'u> {
    ghost use Rattle.std.specs.Prelude.{◌≡◌, map};
    ghost use Rattle.dwz_encode_texts.specs.Texts.{texts_end};
    ghost use Rattle.dwz_unit.specs.Declarations.{Declarations};

    ghost Value = { Declarations };

    ghost view = { λ e. e.declarations };

    ghost invariant = { λ e. e.ends.items ≡ map texts_end e.declarations.pairs };
}

impl<'u> TextEnds<'u> {
    /// Those of a file.
    pub(crate) fn new(alloc: Global, units: &'u Units) -> Result<TextEnds<'u>, NoMemory>
        ensures { IfOk result (λ e. AreOf (rows_of (units_of units.now)) e) }
    {
        let declarations = units.declarations();
        let ends = ends_of(alloc, &declarations)?;
        Ok(TextEnds { declarations, ends })
    }

    /// How many values of the entry with that number stand up to its last text.
    #[inline(always)]
    pub(crate) fn of(&self, entry: u32) -> usize
        requires { entry < length self.now.numbers }
        ensures { (n : ℕ) (pairs : List Pair) → slice_get self.now.numbers entry ≡ Some n → slice_get self.now.pairs n ≡ Some pairs
            → result ≡ Texts.texts_end pairs }
    {
        self.ends[self.declarations.number(entry)]
    }
}
