//! What rows mean, one by one and as trees.

ghost use Rattle.std.specs.Prelude.{◌≡◌, ℕ, ℤ, Option, ◌+◌, ◌<◌, ◌≤◌, ◌++◌, [], ◌∷◌, List, Ok, Some, length, map, drop, slice_get};
ghost use Rattle.std.specs.Prelude.{slice_index};
ghost use Rattle.dwz_def_tops.specs.Spots.{EntryName, SpaceName, Top, in_file, named, row_in, row_tops, spot_in, spots_from, tops_from};
ghost use Rattle.dwz_def_reading.specs.Entries.{RawAttr, RawEntry};
ghost use Rattle.dwz_def_reading.specs.Lists.{Each, In};
ghost use Rattle.dwz_def_reading.specs.Trees.{Forest, Position, size};
ghost use Rattle.dwz_def_reading.specs.Units.{RawUnit, entries_in};
ghost use Rattle.dwz_graph.specs.Rows.{AreAttrsMeant, AreNamed, AreRowsMeant, AreTargets, IsEntryMeant, NextAttr, NextRow, RowsMean, nodes};
ghost use Rattle.dwz_graph.specs.Rows.{nodes_refs, row_names};
ghost use Rattle.dwz_graph.specs.FlatTops.{HasTop, HasTopOfFile};
ghost use Rattle.dwz_def_reading.specs.Documents.{Attr, DwUnit, Entries, Node, entries_map, node_map};
ghost use Rattle.dwz_def_reading.specs.Meanings.{Around, MeaningContext, scope_of};
ghost use Rattle.dwz_def_reading.specs.Meant.{entries_meaning, units_meaning};
ghost use Rattle.dwz_graph_resolve.specs.Named.{entries_refs};
ghost use Rattle.dwz_graph_resolve.specs.Parts.{AreParted};
ghost use Rattle.dwz_graph_resolve.specs.Resolved.{AreEntries, place_at};
ghost use Rattle.dwz_unit.specs.Rows.{EntryRow, rows_below, rows_of};

/// Where a sibling list means entries, its rows mean these in preorder. These name what the sibling list names, and there are as many
/// as it has; with other places in them they are those of the sibling list with these.
pub fn flat_laws()
    ensures means { (s : MeaningContext ℕ) (f : Forest RawEntry) (g : Entries ℕ) (unit : ℕ) (p : Position) → entries_meaning s f ≡ Ok g
        → RowsMean s (rows_below f unit p) (nodes g) }
    ensures refs { (g : Entries ℕ) → nodes_refs (nodes g) ≡ entries_refs g }
    ensures many { (g : Entries ℕ) → length (nodes g) ≡ size g }
    ensures names { (name : ℕ → EntryName) (g : Entries ℕ) → nodes (entries_map name g) ≡ map (node_map name) (nodes g) }
{}

/// One value or row after the other. `DW_AT_sibling` (DWARF 5, 7.5.4) means nothing and names nothing; any other value means the first
/// attribute that is left. An entry's values mean its attributes. The first of some rows means the first of their entries.
pub fn step_laws()
    ensures sibling { (raw : List RawUnit) (s : MeaningContext ℕ) (numbers : List ℕ) (a : RawAttr) (values : List RawAttr) (attrs : List
        (Attr ℕ))
        → a.pair.name ≡ 0x01 → AreAttrsMeant raw s numbers (a ∷ values) attrs → AreAttrsMeant raw s numbers values attrs }
    ensures value { (raw : List RawUnit) (s : MeaningContext ℕ) (numbers : List ℕ) (a : RawAttr) (values : List RawAttr) (attrs : List
        (Attr ℕ))
        → (a.pair.name ≡ 0x01 → ⊥) → AreAttrsMeant raw s numbers (a ∷ values) attrs → NextAttr raw s numbers a values attrs }
    ensures no_value { (raw : List RawUnit) (s : MeaningContext ℕ) (numbers : List ℕ) (attrs : List (Attr ℕ))
        → AreAttrsMeant raw s numbers [] attrs
        → attrs ≡ [] }
    ensures entry { (raw : List RawUnit) (s : MeaningContext ℕ) (i : ℕ) (numbers : List ℕ) (row : EntryRow) (d : Node ℕ)
        → IsEntryMeant raw s i numbers row d → AreAttrsMeant raw s numbers row.entry.attrs d.attrs }
    ensures row { (raw : List RawUnit) (s : MeaningContext ℕ) (i end : ℕ) (numbers : List ℕ) (rows after : List EntryRow) (ds : List (Node
        ℕ))
        → i < end → AreRowsMeant raw s i end numbers rows after ds → NextRow raw s i end numbers rows after ds }
    ensures no_row { (raw : List RawUnit) (s : MeaningContext ℕ) (i end : ℕ) (numbers : List ℕ) (rows after : List EntryRow) (ds : List
        (Node ℕ))
        → end ≤ i → AreRowsMeant raw s i end numbers rows after ds → (rows ≡ []) × (ds ≡ []) }
{}

/// The numbers whose places are named are those of entries that have the names of these places.
pub fn flat_name_laws()
    ensures targets { (raw : List RawUnit) (numbers places more : List ℕ) → AreEntries raw numbers
        → map (place_at raw) numbers ≡ places ++ more → AreTargets raw numbers places }
    ensures named { (raw : List RawUnit) (name : ℕ → EntryName) (numbers places : List ℕ) → AreTargets raw numbers places
        → AreNamed (row_names name raw) numbers (map name places) }
{}

/// The numbers of what is named by the entry with a number, and by those behind it in its unit, begin where its part does.
pub fn part_laws()
    ensures { (around : Around ℕ) (raw : List RawUnit) (refs starts : List ℕ) (n : ℕ) (u : RawUnit) (i end : ℕ) (rows after : List EntryRow)
        (ds : List (Node ℕ)) → AreParted around raw (entries_in raw) refs starts → AreEntries raw refs → slice_get raw n ≡ Some u
        → Each (λ row. row.unit ≡ n) rows → drop i (rows_of raw) ≡ rows ++ after → i + length rows ≡ end
        → RowsMean (scope_of around u) rows ds → AreRowsMeant raw (scope_of around u) i end (drop (slice_index starts i) refs) rows after
        ds }
{}

/// The rows of each top stand among those of the sibling list that its unit's root has, and those of its spaces; and so they do among
/// those of all units of a file.
pub fn flat_top_laws()
    ensures below { (s : MeaningContext ℕ) (name : ℕ
        → EntryName) (f : Forest RawEntry) (g : Entries ℕ) (file number n unit : ℕ) (language : Option ℤ)
        (outer : List SpaceName) (from : Position) (rows after : List EntryRow) (t : Top) → entries_meaning s f ≡ Ok g
        → drop from.before rows ≡ rows_below f unit from ++ after
        → In t (row_tops (row_in file number language outer n (entries_map name g)))
        → (inner : List SpaceName) × (t.spaces ≡ outer ++ inner) × HasTop s name rows unit from.depth inner t }
    ensures in_file { (around : Around ℕ) (raw : List RawUnit) (units : List (DwUnit ℕ)) (file unit top : ℕ) (t : Top)
        → units_meaning around raw ≡ Ok units → In t (tops_from unit top (map (in_file file) (named unit top units)))
        → HasTopOfFile around (spot_in (spots_from unit top units)) raw units file unit t }
    ensures unit { (f : Forest RawEntry) (unit : ℕ) (p : Position) → Each (λ row. row.unit ≡ unit) (rows_below f unit p) }
{}
