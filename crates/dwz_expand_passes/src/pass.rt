//! A pass over new units: what is done with each entry of each, and with the operands of its expressions.

ghost use Rattle.std.specs.Prelude.{◌≡◌, ◌++◌, ◌∷◌, [], List, OnOk};
ghost use Rattle.dwz_expand_layout.specs.Entries.{CanWrite, NewLine, UnitLines, line_view};
ghost use Rattle.dwz_expand_layout.specs.Laid.{Made, laying_in, laying_of};
ghost use Rattle.dwz_expand_layout.specs.Written.{writing_in, writing_of};
ghost use Rattle.dwz_expand_layout.specs.declared.entries.NewKind.{NewKind as Kind};
ghost use Rattle.dwz_expand_passes.specs.Noted.{Noted, noted_of};
ghost use Rattle.dwz_expand_passes.specs.Steps.{a_unit};

use dwz_expand_layout::{Laying, NewEntry, NewKind, Writing};
use dwz_model::NoMemory;

/// It takes new units one by one, and of each its entries.
pub trait Pass {
    // These units are done, where that is what is laid of all.
    ghost done: { Made → Self → List UnitLines → Type 0 };

    // These units are done, and of one of that kind these entries.
    ghost within: { Made → Self → List UnitLines → Kind → List NewLine → Type 0 };

    // The operands of these entries were told.
    ghost noted: { Self → List Noted → Type 0 };

    /// A unit begins.
    fn start(&mut self, kind: NewKind) -> Result<(), NoMemory>
        ensures noted { (given : List Noted) → noted self.old given → noted self.new given }
        ensures passed { (made : Made) (units : List UnitLines) → done made self.old units → OnOk result (within made self.new units kind []) };

    /// Its next entry: the copy of the one with a number, which may be one of the common file, in the unit with a number.
    fn put(
        &mut self,
        unit: usize,
        source: u32,
        common: bool,
        entry: &NewEntry,
    ) -> Result<(), NoMemory>
        requires { CanWrite entry.now }
        ensures noted { (given : List Noted) → noted self.old given → noted self.new (given ++ noted_of unit source common entry.now ∷ []) }
        ensures passed { (made : Made) (units : List UnitLines) (kind : Kind) (lines : List NewLine) → within made self.old units kind lines
            → OnOk result (within made self.new units kind (lines ++ line_view entry.now ∷ [])) };

    /// The unit ends.
    fn close(&mut self) -> Result<(), NoMemory>
        ensures noted { (given : List Noted) → noted self.old given → noted self.new given }
        ensures passed { (made : Made) (units : List UnitLines) (kind : Kind) (lines : List NewLine) → within made self.old units kind lines
            → OnOk result (done made self.new (units ++ a_unit kind lines ∷ [])) };
}

impl Pass for Laying {
    ghost done = { λ made l units. l ≡ laying_of units };

    ghost within = { λ made l units kind lines. l ≡ laying_in units kind lines };

    ghost noted = { λ l given. Unit {0} };

    fn start(&mut self, kind: NewKind) -> Result<(), NoMemory> {
        self.begin(kind)
    }

    fn put(
        &mut self,
        _unit: usize,
        _source: u32,
        _common: bool,
        entry: &NewEntry,
    ) -> Result<(), NoMemory> {
        self.add(entry)
    }

    fn close(&mut self) -> Result<(), NoMemory> {
        self.end()
    }
}

impl<'l> Pass for Writing<'l> {
    ghost done = { λ made w units. w ≡ writing_of made units };

    ghost within = { λ made w units kind lines. w ≡ writing_in made units kind lines };

    ghost noted = { λ w given. Unit {0} };

    fn start(&mut self, kind: NewKind) -> Result<(), NoMemory> {
        self.begin(kind)
    }

    fn put(
        &mut self,
        _unit: usize,
        _source: u32,
        _common: bool,
        entry: &NewEntry,
    ) -> Result<(), NoMemory> {
        self.add(entry)
    }

    fn close(&mut self) -> Result<(), NoMemory> {
        Ok(())
    }
}
