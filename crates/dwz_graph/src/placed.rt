//! What files say with places, from what they say where numbers stand for these.

ghost use Rattle.std.specs.Prelude.{◌≡◌, ℕ, List, Ok, Option};
ghost use Rattle.dwz_def_reading.specs.Documents.{Doc};
ghost use Rattle.dwz_def_reading.specs.Files.{Limits, file_meaning_by};
ghost use Rattle.dwz_def_reading.specs.Finished.{GivenCommon, rule_of_back, rule_of_common};
ghost use Rattle.dwz_def_reading.specs.Units.{RawUnit};
ghost use Rattle.dwz_graph.specs.ByRule.{doc_placed, numbered_rule};

/// A finished common file, and a file that may have been written, say with places what they say where numbers stand for these: they have the
/// same units as they are stored, and the document with the places that have its numbers.
pub fn placed_laws()
    ensures common { (number : ℕ) (l : Limits) (bytes : List ℕ) (raw : List RawUnit) (doc : Doc ℕ)
        → file_meaning_by (numbered_rule (rule_of_common number)) l bytes ≡ Ok (raw, doc)
        → file_meaning_by (rule_of_common number) l bytes ≡ Ok (raw, doc_placed (rule_of_common number) bytes raw doc) }
    ensures back { (common : Option GivenCommon) (number : ℕ) (l : Limits) (bytes : List ℕ) (raw : List RawUnit) (doc : Doc ℕ)
        → file_meaning_by (numbered_rule (rule_of_back common number)) l bytes ≡ Ok (raw, doc)
        → file_meaning_by (rule_of_back common number) l bytes ≡ Ok (raw, doc_placed (rule_of_back common number) bytes raw doc) }
{}
