//! What an order of items is.
ghost use Rattle.std.specs.Prelude.{◌≡◌, ℕ, List, [], ◌∷◌, ◌++◌, true, false, map};
ghost use Rattle.dwz_def_tops.specs.Spots.{EntryName, FileUnit, Row, SpaceName, rows_of_root};
ghost use Rattle.dwz_def_reading.specs.Trees.{End};
ghost use Rattle.dwz_def_reading.specs.Documents.{Compile, DwUnit, Entries};
ghost use Rattle.dwz_def_images.specs.Moves.{Move, image_in};
ghost use Rattle.dwz_def_images.specs.Plan.{PartialUnit, imports, part_row, pinned_first, row_staying};
ghost use Rattle.dwz_plan.specs.Shows.{import_row};
ghost use Rattle.dwz_def_images.specs.Units.{changes, kept_unit, partial_unit, tree};
ghost use Rattle.dwz_layout_items.specs.Chains.{NamesPartial, ShowsSpaced, partial_lines};
ghost use Rattle.dwz_layout_items.specs.Lines.{line, lines, row_lines, steps_of, unit_lines, unit_steps};
ghost use Rattle.dwz_layout_items.specs.Order.{Names, import_lines};
ghost use Rattle.dwz_layout_items.specs.Shows.{NamesKept, view_of};

/// Lines are what is written: by their depths alone they tell where children begin and lists of them end. Those of the entries of a
/// row are those of its tops and spaces.
pub fn line_laws()
    ensures steps { (u : DwUnit EntryName) → steps_of (unit_lines u) ≡ unit_steps u }
    ensures tree { (f : EntryName → EntryName) (depth : ℕ) (row : Row) (last : Entries EntryName)
        → lines depth (tree f row last) ≡ row_lines f depth row
        ++ lines depth last }
{}

/// What is appended of a unit that is kept are the lines of the unit after: of a compile unit of a file of which something moves,
/// where the imports have these numbers; and of any other.
pub fn order_laws()
    ensures kept { (m : Move) (units : List (FileUnit EntryName)) (i : ℕ) (u : FileUnit EntryName) (n : Names EntryName) (parts : List ℕ)
        → NamesKept m i u.unit n → u.unit.kind ≡ Compile → changes m units u.file ≡ true → imports i 0 m.parts ≡ import_row i parts
        → let v = view_of m units n in line 1 n.root ∷ row_lines v.image 2 (pinned_first v.pinned (row_staying v.gone (rows_of_root units
        i)))
        ++ import_lines n parts ≡ unit_lines (kept_unit m units i u) }
    ensures whole { (m : Move) (units : List (FileUnit EntryName)) (i : ℕ) (u : FileUnit EntryName) (n : Names EntryName)
        → NamesKept m i u.unit n
        → (u.unit.kind ≡ Compile → changes m units u.file ≡ false) → line 1 n.root ∷ lines 2 n.whole ≡ unit_lines (kept_unit m units i u) }
    ensures parts { (m : Move) (k : ℕ) (part : PartialUnit) (said : ℕ → SpaceName) (n : Names EntryName) (path : ℕ → List ℕ) (l : ℕ → ℕ)
        → NamesPartial m k said n → ShowsSpaced (image_in m) said n path l part.tops → m.rows k ≡ part_row k part
        → partial_lines n path l (map (λ t. t.number) part.tops) ≡ unit_lines (partial_unit m k) }
{}
