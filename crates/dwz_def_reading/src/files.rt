//! What holds between what files say, the function that answers it, and the first fault.

ghost use Rattle.std.specs.Prelude.{◌≡◌, ◌↔◌, ℕ, List, Ok, Err};
ghost use Rattle.dwz_model.specs.declared.fault.Fault.{Fault};
ghost use Rattle.dwz_model.specs.declared.fault.Refusal.{Refusal};
ghost use Rattle.dwz_def_reading.specs.Documents.{Doc};
ghost use Rattle.dwz_def_reading.specs.Files.{First, IsFileFault, Limits, ReadAll, Reads, file_meaning, files_meaning};
ghost use Rattle.dwz_def_reading.specs.MeaningFaults.{ExactlyOne};
ghost use Rattle.dwz_def_reading.specs.Units.{RawUnit};

/// Files, whatever those before them leave of the limits: documents are answered exactly where the files read as them, and a
/// refusal exactly where it is the first. So files read as just one list of documents, or just one refusal is first. The same
/// of a single file, with its units as they are stored.
pub fn file_laws()
    ensures read { (l : Limits) (number : ℕ) (files : List (List ℕ)) (docs : List (Doc ℕ))
        → (files_meaning l number files ≡ Ok docs) ↔ ReadAll l files docs }
    ensures first { (l : Limits) (number : ℕ) (files : List (List ℕ)) (r : Refusal)
        → (files_meaning l number files ≡ Err r) ↔ First l number files r }
    ensures one { (l : Limits) (number : ℕ) (files : List (List ℕ)) → ExactlyOne (ReadAll l files) (First l number files) }
    ensures file { (l : Limits) (bytes : List ℕ) (units : List RawUnit) (doc : Doc ℕ)
        → (file_meaning l bytes ≡ Ok (units, doc)) ↔ Reads l bytes units doc }
    ensures file_fault { (l : Limits) (bytes : List ℕ) (f : Fault) → (file_meaning l bytes ≡ Err f) ↔ IsFileFault l bytes f }
{}
