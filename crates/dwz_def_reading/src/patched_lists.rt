//! What holds of location lists whose numbers are changed in place.

ghost use Rattle.std.specs.Prelude.{◌≡◌, ℕ, List, Some, length, map};
ghost use Rattle.dwz_def_reading.specs.Entries.{RawAttr};
ghost use Rattle.dwz_model.specs.Lists.{In};
ghost use Rattle.dwz_def_reading.specs.Texts.{IsSlot, slot_place};
ghost use Rattle.dwz_def_reading.specs.Units.{RawUnit};
ghost use Rattle.dwz_def_reading.specs.Exprs.{ExprContext, parts_of};
ghost use Rattle.dwz_def_reading.specs.LocLists.{LocList, SpellsList};
ghost use Rattle.dwz_def_reading.specs.Meanings.{Around, MeaningContext, MeansValue, any_with_address, expr_context};
ghost use Rattle.dwz_def_reading.specs.NamedLists.{NamesList, lists_of_units};
ghost use Rattle.dwz_def_reading.specs.PatchedLists.{CanHave, EndWithin, IsPatched, NamesAlike, list_value, list_with, named_with};
ghost use Rattle.dwz_def_reading.specs.PatchedLists.{number_for_place};
ghost use Rattle.dwz_def_reading.specs.PatchedLists.{with_number, with_operands};
ghost use Rattle.dwz_def_reading.specs.Patching.{renumbered};
ghost use Rattle.dwz_def_reading.specs.Sequences.{StandsFrom};
ghost use Rattle.dwz_def_reading.specs.Shared.{AreRows, ListOperand, NamedList, NoneShared, StandApart, operands_in_lists, operands_of};

/// Location lists that share nothing, in a section in which numbers that fit and name entries were written into their operands, by
/// place: each list stands in its place with these numbers, has the parts that it had, an address if it had one, and ends where it
/// did; each slot that names one holds what it held; and the lists share nothing again, whichever units stand for theirs. So an
/// attribute of another unit that names the list in the same way means these parts, the entries that the numbers name, and an address
/// if it had one.
///
/// Such a section is what is left where the numbers are written one by one, over the operands in order of place. The operands of the
/// lists that units name end within the section.
pub fn patched_list_laws()
    ensures stands { (lists : List NamedList) (number : ℕ → ℕ) (section new : List ℕ) → NoneShared lists
        → IsPatched lists number section new → (c d : ExprContext) (l : NamedList) → In l lists
        → StandsFrom (SpellsList c) section l.from l.list → CanHave d number l
        → StandsFrom (SpellsList d) new l.from (list_with number l.list) }
    ensures parts { (number : ℕ → ℕ) (c : ExprContext) (section : List ℕ) (place : ℕ) (l : LocList)
        → StandsFrom (SpellsList c) section place l → map parts_of (list_with number l).exprs ≡ map parts_of l.exprs }
    ensures operands { (number : ℕ → ℕ) (l : LocList) → operands_of (list_with number l).exprs
        ≡ map (with_number number) (operands_of l.exprs) }
    ensures addresses { (number : ℕ → ℕ) (l : LocList) → any_with_address (list_with number l).exprs ≡ any_with_address l.exprs }
    ensures slots { (lists : List NamedList) (number : ℕ → ℕ) (section new : List ℕ) → NoneShared lists → IsPatched lists number section new
        → (l : NamedList) (base index offset : ℕ) → In l lists → l.slot ≡ Some (slot_place base index) → IsSlot section base index offset
        → IsSlot new base index offset }
    ensures apart { (unit number : ℕ → ℕ) (lists : List NamedList) → NoneShared lists → NoneShared (map (named_with unit number) lists) }
    ensures named { (lists : List NamedList) (number : ℕ → ℕ) (s d : MeaningContext ℕ) (a b : RawAttr) (l : NamedList) → NoneShared lists
        → In l lists → IsPatched lists number s.around.sources.lists d.around.sources.lists → CanHave (expr_context d 7) number l
        → NamesAlike s d a b → NamesList s a l → NamesList d b (named_with (λ unit. d.unit) number l)
        × MeansValue d b (list_value d number l) }
    ensures written { (lists : List NamedList) (rows : List ListOperand) (numbers section : List ℕ) → AreRows lists rows → StandApart rows
        → length numbers ≡ length rows → EndWithin (length section) rows
        → IsPatched lists (number_for_place (map (λ r. r.operand) rows) numbers) section
        (with_operands (renumbered (map (λ r. r.operand) rows) numbers) section) }
    ensures within { (around : Around ℕ) (units : List RawUnit) (rows : List ListOperand) → AreRows (lists_of_units around units) rows
        → EndWithin (length around.sources.lists) rows }
{}
