//! What holds between the spelling of a unit's tree, reading it, and its faults.

ghost use Rattle.std.specs.Prelude.{◌≡◌, ◌↔◌, ℕ, Err};
ghost use Rattle.dwz_model.specs.declared.fault.Fault.{Fault};
ghost use Rattle.dwz_bytes.specs.Input.{Input};
ghost use Rattle.dwz_def_reading.specs.Entries.{UnitContext};
ghost use Rattle.dwz_def_reading.specs.Parts.{AgainFrom, FoundFrom, OneFrom};
ghost use Rattle.dwz_def_reading.specs.Trees.{Position};
ghost use Rattle.dwz_def_reading.specs.Units.{IsSiblingsFault, IsTreeFault, SpellsSiblings, SpellsTree, Tree, tree_at, unit_siblings_at};
ghost use Rattle.dwz_def_reading.specs.Units.{unit_siblings_by};

/// Sibling lists of a unit (DWARF 5, 7.5.3), each entry with the list of its children: what is read is spelled, what is spelled
/// is read whatever follows, no spelling begins another, and reading answers a fault exactly where all before some entry is
/// spelled and that entry has it; and a step of reading a list. The same of a whole tree, which has one root.
pub fn tree_laws()
    ensures list_found { (c : UnitContext) (p : Position) → FoundFrom (SpellsSiblings c p) (unit_siblings_at c p) }
    ensures list_again { (c : UnitContext) (p : Position) → AgainFrom (SpellsSiblings c p) (unit_siblings_at c p) }
    ensures list_one { (c : UnitContext) (p : Position) → OneFrom (SpellsSiblings c p) }
    ensures list_step { (c : UnitContext) (p : Position) (i : Input)
        → unit_siblings_at c p i ≡ unit_siblings_by (unit_siblings_at c) c p i }
    ensures list_fault { (c : UnitContext) (p : Position) (i : Input) (f : Fault)
        → (unit_siblings_at c p i ≡ Err f) ↔ IsSiblingsFault c p i.at i.rest f }

    ensures found { (c : UnitContext) (before : ℕ) → FoundFrom (λ (tree : Tree). SpellsTree c before tree.0 tree.1) (tree_at c before) }
    ensures again { (c : UnitContext) (before : ℕ) → AgainFrom (λ (tree : Tree). SpellsTree c before tree.0 tree.1) (tree_at c before) }
    ensures one { (c : UnitContext) (before : ℕ) → OneFrom (λ (tree : Tree). SpellsTree c before tree.0 tree.1) }
    ensures fault { (c : UnitContext) (before : ℕ) (i : Input) (f : Fault)
        → (tree_at c before i ≡ Err f) ↔ IsTreeFault c before i.at i.rest f }
{}
