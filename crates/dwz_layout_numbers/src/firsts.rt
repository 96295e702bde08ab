//! Where what entries name begins, among the texts of their file and among its numbers of files.

ghost use Rattle.std.specs.Prelude.{◌≡◌, ℕ, ◌+◌, ◌<◌, ◌^◌, count_by, length, map, IfOk};
ghost use Rattle.dwz_unit.specs.Rows.{rows_of, units_of};
ghost use Rattle.dwz_layout_numbers.specs.Befores as Specs;
ghost use Rattle.dwz_layout_numbers.specs.Befores.{befores_from, is_pair_file, is_pair_placed};

use dwz_codes::{Class, DW_AT_SIBLING, class_of, names_file};
use dwz_model::{NoMemory, Pair};
use dwz_unit::{Declarations, Units};
use std::alloc::Global;

/// How many texts, and how many numbers of files, entries have that come before an entry.
#[derive(Clone, Copy, Debug, PartialEq, Eq)]
pub struct CountsBefore {
    /// Texts that are stored by an offset or by a slot (DWARF 5, 7.5.5, class string), but of `DW_AT_sibling`.
    pub texts: u64,
    /// Constants that are numbers of files (2.14, 3.3.8.2).
    pub files: u64,
}

// How many texts, and how many numbers of files, an entry has.
#[derive(Clone, Copy)]
struct PairCounts {
    texts: usize,
    files: usize,
}

fn is_placed(class: Class) -> bool
    ensures { result ≡ Specs.is_placed class }
{
    match class {
        Class::TextInStr => true,
        Class::TextInLineStr => true,
        Class::TextBySlot => true,
        _ => false,
    }
}

fn is_constant(class: Class) -> bool
    ensures { result ≡ Specs.is_constant class }
{
    match class {
        Class::Constant => true,
        _ => false,
    }
}

// Whether a value of that name and form is a text with a place that is written, or the number of a file.
fn is_text(pair: &Pair) -> bool
    ensures { result ≡ is_pair_placed pair.now }
{
    pair.name != DW_AT_SIBLING && is_placed(class_of(pair.form))
}

fn is_file(pair: &Pair) -> bool
    ensures { result ≡ is_pair_file pair.now }
{
    is_constant(class_of(pair.form)) && names_file(pair.name)
}

fn count_texts(pairs: &[Pair]) -> usize
    ensures { result ≡ count_by is_pair_placed pairs.now }
{
    pairs.iter().filter(|pair| is_text(pair)).count()
}

fn count_files(pairs: &[Pair]) -> usize
    ensures { result ≡ count_by is_pair_file pairs.now }
{
    pairs.iter().filter(|pair| is_file(pair)).count()
}

// How many texts and numbers of files there are among values of these names and forms.
fn counts_of(pairs: &[Pair]) -> PairCounts
    ensures { result ≡ Specs.counts_of pairs.now }
{
    PairCounts {
        texts: count_texts(pairs),
        files: count_files(pairs),
    }
}

// The same of each declaration.
fn counts_of_each(alloc: Global, declarations: &Declarations) -> Result<Vec<PairCounts>, NoMemory>
    ensures { IfOk result (λ v. v.items ≡ map Specs.counts_of declarations.now.pairs) }
{
    let mut counts = Vec::with_capacity(alloc, declarations.len())?;
    for number in 0..declarations.len() {
        counts.push(counts_of(declarations.pairs(number)))?;
    }
    Ok(counts)
}

/// For each entry of a file how many texts and numbers of files come before those that it names, in preorder.
pub fn befores(alloc: Global, units: &Units) -> Result<Vec<CountsBefore>, NoMemory>
    ensures { IfOk result (λ v. v.items ≡ befores_from (record { texts = 0; files = 0 }) (rows_of (units_of units.now))) }
{
    let declarations = units.declarations();
    let counts = counts_of_each(alloc, &declarations)?;
    let mut befores = Vec::with_capacity(alloc, units.entries() as usize)?;
    let mut before = CountsBefore { texts: 0, files: 0 };
    for i in 0..units.entries() {
        befores.push(before)?;
        // It has fewer than 2^32 values.
        let _count = units.entry(i).attrs;
        let own = counts[declarations.number(i)];
        before.texts += own.texts as u64;
        before.files += own.files as u64;
    }
    Ok(befores)
}
