//! The new units, one after the other.

ghost use Rattle.std.specs.Prelude.{◌≡◌, ◌++◌, ◌∷◌, ◌<◌, ℕ, [], List, IfOk, OnOk, Some, length, slice_get};
ghost use Rattle.dwz_def_cross.specs.Tops.{WithCommon, whole_units};
ghost use Rattle.dwz_def_expand.specs.Refusals.{Where};
ghost use Rattle.dwz_def_reading.specs.Documents.{DwUnit, kind_map};
ghost use Rattle.dwz_expand_sources.specs.Rows.{AreCopies};
ghost use Rattle.dwz_expand_layout.specs.Entries.{UnitLines};
ghost use Rattle.dwz_expand_layout.specs.Laid.{Made};
ghost use Rattle.dwz_expand_layout.specs.Shown.{KindShows};
ghost use Rattle.dwz_expand_passes.specs.Passes.{AreNew, IsReady, IsRefused, Says, entry_many};
ghost use Rattle.dwz_expand_passes.specs.Noted.{AreNoted, AreNotedOf, Noted};
ghost use Rattle.dwz_expand_passes.specs.Steps.{KnowsHere};
ghost use Rattle.dwz_expand_passes.specs.Tables.{IsTableOf};
ghost use Rattle.dwz_expand_passes.specs.Units.{IsNewOf, RefusesAt};
ghost use Rattle.dwz_expand_sources.specs.Numbers.{HasRanges, root_numbers};
ghost use Rattle.dwz_expand_sources.specs.declared.sources.NewUnit.{NewUnit as UnitInPlan};
ghost use Rattle.dwz_expand_sources.specs.Walk.{sources_of};
ghost use Rattle.dwz_expand_passes.specs.Files.{IsKnownReady, common_count, entry_count};
ghost use Rattle.dwz_expand_passes.specs.CopiesOf.{named_copy};
ghost use Rattle.dwz_expand_passes.specs.Numbered.{key_in};
ghost use Rattle.dwz_model.specs.Lists.{Each};

use crate::copied::CopiedEntry;
use crate::entries::pass_entries;
use crate::files::{Known, SourceFile};
use crate::kinds::kind_of;
use crate::new_file::NewFile;
use crate::pass::Pass;
use crate::tables::LastTable;
use dwz_expand_layout::NewKind;
use dwz_expand_sources::{Copies, CopyNumbers, NewUnit, SourceWalk};
use dwz_model::{NoMemory, ReadErr};

// Takes a new unit, of a kind, where that is known of both files.
fn pass_known<'a, P: Pass>(
    pass: &mut P,
    file: &NewFile<'_, 'a>,
    known: &Known<'_, 'a>,
    new: NewUnit,
    kind: NewKind,
    copied: &mut CopiedEntry<'a>,
) -> Result<(), ReadErr>
    requires ready { IsReady file.now }
    requires known { IsKnownReady known.now }
    requires own { known.now.own ≡ file.now.own }
    requires common { known.now.common ≡ file.now.common }
    requires many { entry_count known.now ≡ entry_many file.now }
    requires new { slice_get file.now.sources.now.units known.now.unit ≡ Some new }
    requires ranges { Each (HasRanges file.now.sources.now.ranges) file.now.sources.now.units }
    requires roots { Each (λ x. x.root < entry_many file.now) file.now.sources.now.units }
    requires knows { (w : WithCommon ℕ) (stands : Where ℕ) → Says file.now w stands → KnowsHere known.now w stands }
    requires kinds { (w : WithCommon ℕ) (stands : Where ℕ) (u : DwUnit ℕ) → Says file.now w stands → slice_get w.own new.unit ≡ Some u
        → slice_get (whole_units w.own) known.now.unit ≡ Some u
        → KindShows (key_in w) kind (kind_map (named_copy w known.now.unit) u.kind) }
    ensures passed { OnOk result ((o : UnitLines) × IsNewOf file.now known.now.unit o
        × ((made : Made) (units : List UnitLines) → P.done made pass.old units → P.done made pass.new (units ++ o ∷ []))) }
    ensures noted { OnOk result ((given : List Noted)
        × AreNotedOf (Says file.now) file.now.own file.now.common known.now.unit (sources_of file.now.sources.now.ranges new) given
        × ((before : List Noted) → P.noted pass.old before → P.noted pass.new (before ++ given))) }
    ensures refused { RefusesAt file.now known.now.unit result }
{
    let mut walk = SourceWalk::new(file.sources, known.unit);
    pass.start(kind)?;
    pass_entries(pass, known, &mut walk, copied)?;
    pass.close()?;
    Ok(())
}

// Takes the new unit at hand, with its number.
fn pass_here<'a, P: Pass>(
    pass: &mut P,
    file: &NewFile<'_, 'a>,
    copies: &Copies,
    n: usize,
    last: &mut LastTable,
    copied: &mut CopiedEntry<'a>,
) -> Result<(), ReadErr>
    requires ready { IsReady file.now }
    requires unit { n < length file.now.sources.now.units }
    requires many { length copies.now.first ≡ entry_many file.now }
    requires copies { (roots : List ℕ) × AreCopies file.now.sources.now roots copies.now }
    requires here { copies.now.unit ≡ n }
    requires table { IsTableOf file.now.own.sections.now last.old }
    ensures table { OnOk result (IsTableOf file.now.own.sections.now last.new) }
    ensures passed { OnOk result ((o : UnitLines) × IsNewOf file.now n o
        × ((made : Made) (units : List UnitLines) → P.done made pass.old units → P.done made pass.new (units ++ o ∷ []))) }
    ensures noted { OnOk result ((given : List Noted)
        × ((new : UnitInPlan) → slice_get file.now.sources.now.units n ≡ Some new
        → AreNotedOf (Says file.now) file.now.own file.now.common n (sources_of file.now.sources.now.ranges new) given)
        × ((before : List Noted) → P.noted pass.old before → P.noted pass.new (before ++ given))) }
    ensures refused { RefusesAt file.now n result }
{
    let new = file.sources.units()[n];
    let line = file.own.heres[new.unit as usize].line;
    last.go_to(file.alloc, file.own.sections, line)?;
    let known = Known {
        alloc: file.alloc,
        own: file.own,
        common: file.common,
        copies,
        unit: n,
        paths: &last.paths,
    };
    let kind = kind_of(file, copies, new.unit);
    pass_known(pass, file, &known, new, kind, copied)
}

// How many entries the common file has.
fn common_entries(common: &Option<SourceFile>) -> usize
    ensures { result ≡ common_count common.now }
{
    match common {
        Some(common) => common.units.entries() as usize,
        None => 0,
    }
}

// The copies of all entries; no unit is at hand.
fn copies_of(file: &NewFile, numbers: &CopyNumbers) -> Result<Copies, NoMemory>
    requires ready { IsReady file.now }
    requires numbers { numbers.now.roots ≡ root_numbers file.now.sources.now.ranges 0 file.now.sources.now.units }
    ensures copies { IfOk result (λ c. AreCopies file.now.sources.now numbers.now.roots c) }
    ensures many { IfOk result (λ c. length c.first ≡ entry_many file.now) }
{
    let entries = file.own.units.entries() as usize + common_entries(&file.common);
    Copies::of(file.alloc, file.sources, numbers, entries)
}

// Takes all new units in order, by the copies of their sources.
fn pass_all<P: Pass>(
    pass: &mut P,
    file: &NewFile,
    numbers: &CopyNumbers,
    copies: &mut Copies,
) -> Result<(), ReadErr>
    requires ready { IsReady file.now }
    requires many { length copies.old.first ≡ entry_many file.now }
    requires copies { AreCopies file.now.sources.now numbers.now.roots copies.old }
    ensures passed { OnOk result ((order : List UnitLines) × AreNew file.now order
        × ((made : Made) → P.done made pass.old [] → P.done made pass.new order)) }
    ensures noted { OnOk result ((given : List Noted) × AreNoted file.now given
        × ((before : List Noted) → P.noted pass.old before → P.noted pass.new (before ++ given))) }
    ensures refused { IsRefused file.now result }
{
    let mut last = LastTable::none(file.alloc, file.own.sections)?;
    let mut copied = CopiedEntry::new(file.alloc);
    for n in 0..file.sources.units().len() {
        copies.enter(file.sources, numbers, n);
        pass_here(pass, file, copies, n, &mut last, &mut copied)?;
    }
    Ok(())
}

/// Takes all new units in order. Refused at the first value that can't be copied, as `lay` refuses.
pub fn pass_units<P: Pass>(pass: &mut P, file: &NewFile) -> Result<(), ReadErr>
    requires { IsReady file.now }
    ensures passed { OnOk result ((order : List UnitLines) × AreNew file.now order
        × ((made : Made) → P.done made pass.old [] → P.done made pass.new order)) }
    ensures noted { OnOk result ((given : List Noted) × AreNoted file.now given
        × ((before : List Noted) → P.noted pass.old before → P.noted pass.new (before ++ given))) }
    ensures refused { IsRefused file.now result }
{
    let numbers = CopyNumbers::of(file.alloc, file.sources)?;
    let mut copies = copies_of(file, &numbers)?;
    pass_all(pass, file, &numbers, &mut copies)
}
