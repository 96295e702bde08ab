//! What holds between what values and units mean, the function that answers it, and why they mean nothing.

ghost use Rattle.std.specs.Prelude.{◌≡◌, ◌↔◌, ℕ, List, Ok, Err};
ghost use Rattle.dwz_model.specs.declared.fault.Fault.{Fault};
ghost use Rattle.dwz_def_reading.specs.Documents.{DwUnit, Value};
ghost use Rattle.dwz_def_reading.specs.Entries.{RawAttr};
ghost use Rattle.dwz_def_reading.specs.Meanings.{Around, MeanUnits, MeaningContext, MeansValue};
ghost use Rattle.dwz_def_reading.specs.Classes.{Unread};
ghost use Rattle.dwz_def_reading.specs.Classes.{class_of};
ghost use Rattle.dwz_def_reading.specs.MeaningFaults.{ExactlyOne, HasFault, HaveUnitFault};
ghost use Rattle.dwz_def_reading.specs.Meant.{meaning, units_meaning};
ghost use Rattle.dwz_def_reading.specs.Units.{RawUnit};
ghost use Rattle.dwz_def_reading.specs.Values.{IsUnread, shape_of, written_rows};

/// Meanings: the value that is answered is what the stored value means, what it means is answered, and a fault is answered
/// exactly where it holds; the same of the units of a file, whatever stands for the places in it. Units mean just one list of units, or
/// have just one fault. Each form that is read has a class, and no other form has one.
pub fn meaning_laws()
    ensures found { (s : MeaningContext ℕ) (a : RawAttr) (v : Value ℕ) → meaning s a ≡ Ok v → MeansValue s a v }
    ensures again { (s : MeaningContext ℕ) (a : RawAttr) (v : Value ℕ) → MeansValue s a v → meaning s a ≡ Ok v }
    ensures fault { (s : MeaningContext ℕ) (a : RawAttr) (f : Fault) → (meaning s a ≡ Err f) ↔ HasFault s a f }
    ensures units_found { (around : Around ℕ) (units : List RawUnit) (v : List (DwUnit ℕ)) → units_meaning around units ≡ Ok v
        → MeanUnits around units v }
    ensures units_again { (around : Around ℕ) (units : List RawUnit) (v : List (DwUnit ℕ)) → MeanUnits around units v
        → units_meaning around units ≡ Ok v }
    ensures units_fault { (around : Around ℕ) (units : List RawUnit) (f : Fault)
        → (units_meaning around units ≡ Err f) ↔ HaveUnitFault around units f }
    ensures one { (around : Around ℕ) (units : List RawUnit) → ExactlyOne (MeanUnits around units) (HaveUnitFault around units) }
    ensures classes { (form : ℕ) → IsUnread (shape_of written_rows form) ↔ (class_of form ≡ Unread) }
{}
