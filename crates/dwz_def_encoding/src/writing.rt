//! What holds of the bytes of units: their lengths, where things stand, and what they say.

ghost use Rattle.std.specs.Prelude.{◌≡◌, ◌↔◌, ◌+◌, ◌<◌, ◌≤◌, ◌^◌, ℕ, Bool, false, true, List, length, map};
ghost use Rattle.dwz_def_reading.specs.Documents.{Attr, DwUnit, Entries, Kind, Node, entries_map, node_map, unit_map};
ghost use Rattle.dwz_def_reading.specs.Entries.{Mode, own_forms};
ghost use Rattle.dwz_def_reading.specs.Lists.{Each, In};
ghost use Rattle.dwz_def_reading.specs.Pruning.{new_number, pruned};
ghost use Rattle.dwz_def_reading.specs.Meanings.{Around, MeanUnits, Sources, text_sections_of};
ghost use Rattle.dwz_def_reading.specs.Units.{RawUnit, SpellsUnits};
ghost use Rattle.dwz_def_reading.specs.Values.{AreBytes};
ghost use Rattle.dwz_def_tops.specs.Lists.{EachPair, NoneTwice};
ghost use Rattle.dwz_def_encoding.specs.Bases.{Bases, bases_in};
ghost use Rattle.dwz_def_encoding.specs.Carried.{ApartIn, BasesStand, BuiltUnit, CarriedEntries, CarriedNode, CarriedUnit, ClosedIn, OfAny};
ghost use Rattle.dwz_def_encoding.specs.Carried.{OfFile, OperandsStand, SectionsStand};
ghost use Rattle.dwz_def_encoding.specs.Fitting.{AreWritable, IsRoomy, UnitFits, mode_for};
ghost use Rattle.dwz_def_encoding.specs.Meant.{Spells, Tells, UnitsSay, all_entry_keys, told_texts};
ghost use Rattle.dwz_def_encoding.specs.Placing.{FileOut, Forms, UnitsStand, files_keys, fit_units, numbering, sections};
ghost use Rattle.dwz_def_encoding.specs.Pruned.{AreNewSlots, StaysIn, UnitStays, all_uses, known_slots, renumbered_units, slot_after};
ghost use Rattle.dwz_def_encoding.specs.Pruned.{with_texts};
ghost use Rattle.dwz_def_tops.specs.Shown.{units_keys};
ghost use Rattle.dwz_def_encoding.specs.Sound.{SoundAttr, SoundEntries, SoundNode, SoundUnit};
ghost use Rattle.dwz_def_tops.specs.Spots.{EntryName, same_spot};
ghost use Rattle.dwz_def_encoding.specs.Standing.{SameLength};
ghost use Rattle.dwz_def_encoding.specs.Writing.{DeclarationShape, Numbering, attrs_bytes, kind_bytes, node_bytes, spelled, tree_bytes};
ghost use Rattle.dwz_def_encoding.specs.Writing.{unit_bytes};
ghost use Rattle.dwz_def_encoding.specs.Writing.{units_bytes, written_unit_size};

/// No length depends on the numbers that are written, nor on where a unit begins: neither that of the attributes of an entry,
/// of an entry's code and values, of a sibling list, of a unit's tree, of what its kind has in the header, nor its own.
pub fn length_laws()
    ensures attrs { (attrs : List (Attr EntryName)) → Each SoundAttr attrs → SameLength (λ n unit. attrs_bytes n unit attrs) }
    ensures entry { (table : List DeclarationShape) (e : Node EntryName) (children : Entries EntryName) → SoundNode e
        → SameLength (λ n unit. node_bytes n unit table e children) }
    ensures entries { (table : List DeclarationShape) (entries : Entries EntryName) → SoundEntries entries
        → SameLength (λ n unit. spelled n unit table entries) }
    ensures tree { (u : DwUnit EntryName) → SoundUnit u → SameLength (λ n unit. tree_bytes n unit u) }
    ensures kind { (kind : Kind EntryName) → SameLength (λ n unit. kind_bytes n unit kind) }
    ensures unit { (u : DwUnit EntryName) → SoundUnit u → (m n : Numbering EntryName) (p q : ℕ)
        → written_unit_size m p u ≡ written_unit_size n q u }
    ensures size { (n : Numbering EntryName) (unit offset : ℕ) (u : DwUnit EntryName)
        → length (unit_bytes n offset unit u) ≡ written_unit_size n unit u }
{}

/// Where names stand: if none stands twice in all files, the numbers from the placement agree with where things stand in each file, and
/// any numbers that do are those. Under such numbers no two names of one file have one place, and each place is one of the section.
pub fn placing_laws()
    ensures stands { (files : List (FileOut EntryName)) → NoneTwice (files_keys files) → (f : FileOut EntryName) → In f files
        → Each SoundUnit f.units
        → UnitsStand (numbering same_spot files) f.units 0 }
    ensures one { (n : Numbering EntryName) (files : List (FileOut EntryName)) (s : EntryName)
        → ((f : FileOut EntryName) → In f files → Each SoundUnit f.units × UnitsStand n f.units 0) → In s (files_keys files)
        → n.place s ≡ (numbering same_spot files).place s }
    ensures apart { (n : Numbering EntryName) (units : List (DwUnit EntryName)) (s t : EntryName) → UnitsStand n units 0
        → In s (units_keys units)
        → In t (units_keys units) → n.place s ≡ n.place t → s ≡ t }
    ensures within { (n : Numbering EntryName) (tables : List (List ℕ)) (units : List (DwUnit EntryName)) (s : EntryName)
        → UnitsStand n units 0
        → In s (units_keys units) → n.place s < length (units_bytes n tables units) }
{}

/// What the two sections of a file say of units that can be written. Where numbers fit, the sections spell units whose entries stand at
/// the places of their names, under any limits on depth and on entries that these units meet. Where each reference names an
/// entry of the unit, of the file, or of the common file, as its form says, and operands have room, numbers fit; and where each other
/// attribute was read, texts stand where their forms say, and location lists have the numbers of where things stand, the units that are
/// spelled mean those that were written, with places for names.
pub fn bytes_laws()
    ensures roomy { (units : List (DwUnit EntryName)) → IsRoomy units (mode_for units) }
    ensures fits { (n : Numbering EntryName) (common : List EntryName) (units : List (DwUnit EntryName)) (t : Tells EntryName)
        → t.all ≡ all_entry_keys units
        → t.common ≡ common → AreWritable n common units → UnitsSay t units → Each (UnitFits n) units }
    ensures spelled { (n : Numbering EntryName) (common : List EntryName) (units : List (DwUnit EntryName)) (mode : Mode)
        → AreWritable n common units
        → Each (UnitFits n) units → IsRoomy units mode → Spells n (sections n units) mode units }
{}

/// The forms of values. Units with what was read in a file are sound once these are chosen, and each value says what its form says: where
/// each reference names an entry of the file or of the common file, and no name stands twice; where the sections of the file are those that
/// were read, and the texts that it shares are those of the common file, or all texts are in `.debug_str` of the common file, and all paths
/// in its line table; and where the root of an old unit says of slots, of a line table and of lists what it said, and the root of a partial
/// unit names the line table by which its files are numbered; and where operands of expressions and of location lists name entries of the
/// unit, or of the file, as their numbers are counted. Whatever is written has a fixed length. No name is changed.
pub fn form_laws()
    ensures file { (sources : Sources) (f : Forms EntryName) (t : Tells EntryName) (units : List (DwUnit EntryName)) → f.same ≡ same_spot
        → f.is_common ≡ false → t.all ≡ all_entry_keys units → NoneTwice (units_keys units)
        → Each (λ u. CarriedUnit (OfFile sources) (f.origin u.at) u) units → ClosedIn t units → ApartIn t units
        → SectionsStand false (OfFile sources) f t units → Each (BasesStand f) units → Each (OperandsStand t) units
        → Each SoundUnit (fit_units f units) × UnitsSay t (fit_units f units) }
    ensures common { (f : Forms EntryName) (t : Tells EntryName) (units : List (DwUnit EntryName)) → f.same ≡ same_spot → f.is_common ≡ true
        → t.all ≡ all_entry_keys units → NoneTwice (units_keys units)
        → Each (λ u. CarriedUnit OfAny (f.origin u.at) u) units → ClosedIn t units → ApartIn t units → SectionsStand true OfAny f t units
        → Each (BasesStand f) units → Each (OperandsStand t) units
        → Each SoundUnit (fit_units f units) × UnitsSay t (fit_units f units) }
    ensures keys { (f : Forms EntryName) (units : List (DwUnit EntryName)) → units_keys (fit_units f units) ≡ units_keys units }
{}

/// What is carried. Units that are read are, where no attribute names a text of a common file, each with what its own root says; and units,
/// entries and lists of entries stay so where places get names, or names others.
pub fn carried_laws()
    ensures read { (abbrevs info : List ℕ) (mode : Mode) (raw : List RawUnit) (around : Around ℕ) (units : List (DwUnit ℕ))
        → mode.forms ≡ own_forms → SpellsUnits abbrevs mode 0 raw 0 info → MeanUnits around raw units → AreBytes info → Each BuiltUnit units
        → Each (λ u. CarriedUnit (OfFile around.sources) (bases_in u) u) units }
    ensures named { (sources : Sources) (origin : Bases) (f : ℕ → EntryName) (u : DwUnit ℕ) → CarriedUnit (OfFile sources) origin u
        → CarriedUnit (OfFile sources) origin (unit_map f u) }
    ensures unit { (sources : Sources) (origin : Bases) (f : EntryName → EntryName) (u : DwUnit EntryName)
        → CarriedUnit (OfFile sources) origin u
        → CarriedUnit (OfFile sources) origin (unit_map f u) }
    ensures entry { (sources : Sources) (origin : Bases) (f : EntryName → EntryName) (e : Node EntryName)
        → CarriedNode (OfFile sources) origin e
        → CarriedNode (OfFile sources) origin (node_map f e) }
    ensures entries { (sources : Sources) (origin : Bases) (f : EntryName → EntryName) (entries : Entries EntryName)
        → CarriedEntries (OfFile sources) origin entries → CarriedEntries (OfFile sources) origin (entries_map f entries) }
{}

/// Texts that move. What was read in a file whose slots and line tables let it stay does so in the unit in which it is written, once the
/// forms of values are chosen. Then units are sound, and say the same, where just the texts stay that are used: their values of
/// DW_FORM_strp have the new numbers of their uses, and so have the slots of `.debug_str_offsets` that name a text. No name is changed.
/// What stays doesn't depend on the order of the uses; and slots stand in the section, none in another.
pub fn pruned_laws()
    ensures stays { (f : Forms EntryName) (sources : Sources) (places : List ℕ) (units : List (DwUnit EntryName)) → f.is_common ≡ false
        → Each (λ u. CarriedUnit (StaysIn sources places) (f.origin u.at) u) units → Each (BasesStand f) units
        → Each (UnitStays (text_sections_of sources) sources.line places) (fit_units f units) }
    ensures said { (t : Tells EntryName) (units : List (DwUnit EntryName)) (offsets : List ℕ) → length t.strs < 2 ^ 32
        → let uses = all_uses t.strs t.offsets units in AreNewSlots (slot_after t.strs uses) (known_slots t.offsets) t.offsets offsets
        → Each (UnitStays (told_texts t) t.line (known_slots t.offsets)) units → Each SoundUnit units → UnitsSay t units
        → Each SoundUnit (renumbered_units (new_number t.strs uses) units)
        × UnitsSay (with_texts t (pruned t.strs uses) offsets) (renumbered_units (new_number t.strs uses) units) }
    ensures keys { (number : ℕ → ℕ) (units : List (DwUnit EntryName)) → units_keys (renumbered_units number units) ≡ units_keys units }
    ensures uses { (strs uses others : List ℕ) → ((n : ℕ) → In n uses ↔ In n others)
        → (pruned strs uses ≡ pruned strs others) × ((used : ℕ) → new_number strs uses used ≡ new_number strs others used) }
    ensures slots { (offsets : List ℕ) → Each (λ place. place + 4 ≤ length offsets) (known_slots offsets)
        × EachPair (λ place other. place + 4 ≤ other) (known_slots offsets) }
{}
