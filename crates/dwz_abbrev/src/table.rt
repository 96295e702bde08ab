//! Tables that are looked up and made.

ghost use Rattle.std.specs.Prelude.{◌≡◌, ◌≢◌, ◌==◌, ◌<◌, ◌^◌, ◌+◌, ◌++◌, ◌∷◌, [], true, false, All, IfOk, OnErr, OnOk, List, length};
ghost use Rattle.std.specs.Option.{option_copied, option_map};
ghost use Rattle.dwz_def_reading.specs.Abbrevs.{Declaration, IsCounted, IsPlainPair, find_decl, with_code};
ghost use Rattle.dwz_abbrev.specs.Ranges.{IsInRange};
ghost use Rattle.dwz_abbrev.specs.Shapes.{IsAdded, IsLeastCode};
ghost use Rattle.dwz_abbrev.specs.Views.{decl_view, views};

use crate::decl::Decl;
use crate::rows::Rows;
use dwz_model::{NoMemory, Pair, Pairs};
use std::alloc::Global;
use std::marker::Model;

/// An abbreviation table. Clauses see the declarations, in the order in which they stand.
#[derive(Drop)]
pub struct Table {
    pub(crate) rows: Rows,
}

impl Model for Table {
    ghost use Rattle.std.specs.Prelude.{List};
    ghost use Rattle.dwz_def_reading.specs.Abbrevs.{Declaration, FitsTable};

    ghost Value = { List Declaration };

    ghost view = { λ t. t.rows };

    ghost invariant = { λ t. FitsTable t.rows };
}

// The numbers of a pair are those of their types, which is known of it once it is read.
#[inline(always)]
fn in_range(pair: &Pair)
    ensures { IsInRange pair.now }
{
    let _name = pair.name;
    let _form = pair.form;
    let _constant = pair.constant;
}

// The same of each pair of a list.
fn all_in_range(pairs: &[Pair])
    ensures { All IsInRange pairs.now }
{
    for pair in pairs {
        in_range(pair);
    }
}

// Whether a declaration has that tag, children or none, and these pairs.
fn has_shape(decl: &Decl, tag: u16, children: bool, pairs: &[Pair]) -> bool
    ensures yes { result ≡ true → decl_view decl.now ≡ with_code (record { tag = tag; children = children; pairs = pairs.now }) decl.now.code }
    ensures no { result ≡ false → decl_view decl.now ≢ with_code (record { tag = tag; children = children; pairs = pairs.now }) decl.now.code }
{
    if decl.tag != tag {
        return false;
    }
    if decl.children != children {
        return false;
    }
    decl.pairs.as_slice() == pairs
}

// The least code of the declarations of a shape, with one more declaration behind those before.
fn with_next(
    found: Option<u64>,
    decl: &Decl,
    tag: u16,
    children: bool,
    pairs: &[Pair],
) -> Option<u64>
    ensures { (table : List Declaration) → IsLeastCode table (record { tag = tag; children = children; pairs = pairs.now }) found
        → IsLeastCode (table ++ decl_view decl.now ∷ []) (record { tag = tag; children = children; pairs = pairs.now }) result }
{
    if !has_shape(decl, tag, children, pairs) {
        return found;
    }
    match found {
        None => Some(decl.code),
        Some(other) if other <= decl.code => Some(other),
        Some(_) => Some(decl.code),
    }
}

impl Table {
    /// The table without declarations.
    pub fn new(alloc: Global) -> Table
        ensures { result ≡ [] }
    {
        Table {
            rows: Rows::new(alloc),
        }
    }

    /// Makes room for so many more declarations.
    pub fn reserve(&mut self, room: usize) -> Result<(), NoMemory>
        ensures { self.new ≡ self.old }
    {
        self.rows.reserve(room)
    }

    /// How many declarations there are.
    #[inline(always)]
    pub fn len(&self) -> usize
        ensures len { result ≡ length self.now }
        ensures small { result < 2 ^ 63 }
    {
        self.rows.len()
    }

    /// Whether there is no declaration.
    pub fn is_empty(&self) -> bool
        ensures { result ≡ (length self.now == 0) }
    {
        self.len() == 0
    }

    /// The declaration with a code. None exactly where the table has none.
    #[inline(always)]
    pub fn decl(&self, code: u64) -> Option<&Decl>
        ensures { option_map decl_view (option_copied result) ≡ find_decl self.now code }
    {
        self.rows.decl(code)
    }

    /// The declarations, in the order in which they stand.
    #[inline(always)]
    pub fn decls(&self) -> &[Decl]
        ensures { views result.now ≡ self.now }
    {
        self.rows.as_slice()
    }

    /// The least code of a declaration of this tag, with or without children, and these pairs. None exactly where the table has none.
    pub fn code_of(&self, tag: u16, children: bool, pairs: &Pairs) -> Option<u64>
        ensures { IsLeastCode self.now (record { tag = tag; children = children; pairs = pairs.now }) result }
    {
        let mut least = None;
        for decl in self.decls() {
            least = with_next(least, decl, tag, children, pairs.as_slice());
        }
        least
    }

    /// The code of an equal declaration, if the table has one; else the declaration is appended under the next code, counted from 1. After
    /// NoMemory the table is as before. It looks through the declarations: whoever adds many keeps an index of them beside the table.
    pub fn add(&mut self, tag: u16, children: bool, pairs: Pairs) -> Result<u64, NoMemory>
        requires counted { IsCounted self.old }
        requires some_tag { 0 < tag }
        requires plain { All IsPlainPair pairs }
        ensures ok { IfOk result (λ code. IsAdded self.old self.new (record { tag = tag; children = children; pairs = pairs }) code) }
        ensures err { OnErr result (self.new ≡ self.old) }
        ensures counted { IsCounted self.new }
    {
        match self.code_of(tag, children, &pairs) {
            Some(code) => Ok(code),
            None => self.append(tag, children, pairs),
        }
    }

    /// Appends a declaration of this tag, with or without children, and these pairs, under the next code, counted from 1. After
    /// NoMemory the table is as before.
    pub fn append(&mut self, tag: u16, children: bool, pairs: Pairs) -> Result<u64, NoMemory>
        requires counted { IsCounted self.old }
        requires some_tag { 0 < tag }
        requires plain { All IsPlainPair pairs }
        ensures code { IfOk result (λ code. code ≡ length self.old + 1) }
        ensures ok { IfOk result (λ code.
            self.new ≡ self.old ++ with_code (record { tag = tag; children = children; pairs = pairs }) code ∷ []) }
        ensures err { OnErr result (self.new ≡ self.old) }
        ensures counted { IsCounted self.new }
    {
        all_in_range(pairs.as_slice());
        let code = self.rows.len() as u64 + 1;
        self.rows.push(Decl {
            code,
            tag,
            children,
            pairs,
        })?;
        Ok(code)
    }
}
