//! What holds between what files say that may have been written by this tool, the functions that answer it, and the first fault.

ghost use Rattle.std.specs.Prelude.{◌≡◌, ◌↔◌, ℕ, List, Option, Ok, Err};
ghost use Rattle.dwz_model.specs.declared.fault.Refusal.{Refusal};
ghost use Rattle.dwz_def_reading.specs.Finished.{BesideDocs, FinishedDocs, FirstBeside, FirstFinished, ReadBeside, ReadFinished, beside_meaning, finished_meaning};

/// Files that may have been written, and the common file that they are read with, or without one: their documents are answered exactly
/// where they read as these, and a refusal exactly where it is the first.
pub fn finished_laws()
    ensures read { (common : Option (List ℕ)) (files : List (List ℕ)) (said : FinishedDocs)
        → (finished_meaning common files ≡ Ok said) ↔ ReadFinished common files said }
    ensures first { (common : Option (List ℕ)) (files : List (List ℕ)) (r : Refusal)
        → (finished_meaning common files ≡ Err r) ↔ FirstFinished common files r }
{}

/// The same of files by themselves beside a finished common file.
pub fn beside_laws()
    ensures read { (common : List ℕ) (files : List (List ℕ)) (said : BesideDocs)
        → (beside_meaning common files ≡ Ok said) ↔ ReadBeside common files said }
    ensures first { (common : List ℕ) (files : List (List ℕ)) (r : Refusal)
        → (beside_meaning common files ≡ Err r) ↔ FirstBeside common files r }
{}
