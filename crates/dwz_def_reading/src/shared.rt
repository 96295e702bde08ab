//! What holds between location lists that share bytes, and how they are found.

ghost use Rattle.std.specs.Prelude.{◌≡◌, ◌↔◌, ◌<◌, ℕ, List, Ok, Err};
ghost use Rattle.dwz_model.specs.declared.fault.Fault.{Fault};
ghost use Rattle.dwz_model.specs.Lists.{In};
ghost use Rattle.dwz_def_reading.specs.Meanings.{Around};
ghost use Rattle.dwz_def_reading.specs.NamedLists.{AnyUnitNames, lists_of_units};
ghost use Rattle.dwz_def_reading.specs.Units.{RawUnit};
ghost use Rattle.dwz_def_reading.specs.Shared.{AreRows, IsSharedFault, ListOperand, NamedList, NoneShared, PassesOver, none_shared};
ghost use Rattle.dwz_def_reading.specs.Shared.{operands_in_lists};

/// Location lists that attributes name: none shares a byte with an operand of another, or the fault stands at the least place of
/// an operand that shares one. A pass over their operands in order of place, each once, decides it: where it finds nothing,
/// nothing is shared, and the other way round, as each list has a byte.
///
/// The lists of a file's units are just those that one of their attributes names, and each of these has a byte, as each of their
/// operands has.
pub fn shared_laws()
    ensures none { (lists : List NamedList) → (none_shared lists ≡ Ok tt) ↔ NoneShared lists }
    ensures fault { (lists : List NamedList) (f : Fault) → (none_shared lists ≡ Err f) ↔ IsSharedFault lists f }
    ensures passes { (lists : List NamedList) (rows : List ListOperand) → AreRows lists rows → PassesOver lists rows → NoneShared lists }
    ensures apart { (lists : List NamedList) (rows : List ListOperand) → AreRows lists rows
        → ((l : NamedList) → In l lists → l.from < l.list.end) → NoneShared lists → PassesOver lists rows }
    ensures named { (around : Around ℕ) (units : List RawUnit) (l : NamedList)
        → In l (lists_of_units around units) ↔ AnyUnitNames around units l }
    ensures some { (around : Around ℕ) (units : List RawUnit) (l : NamedList) → AnyUnitNames around units l → l.from < l.list.end }
    ensures wide { (around : Around ℕ) (units : List RawUnit) (o : ListOperand) → In o (operands_in_lists (lists_of_units around units))
        → 0 < o.operand.width }
{}
