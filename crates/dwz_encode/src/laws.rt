//! What a layout is, and the bytes that are written by it.

ghost use Rattle.std.specs.Prelude.{ℕ, List};
ghost use Rattle.dwz_def_tops.specs.Spots.{EntryName};
ghost use Rattle.dwz_layout.specs.declared.known.EntryTable.{EntryTable};
ghost use Rattle.dwz_layout.specs.declared.order.UnitItems.{UnitItems};
ghost use Rattle.dwz_def_encoding.specs.Placing.{FileOut};
ghost use Rattle.dwz_def_encoding.specs.Writing.{Numbering};
ghost use Rattle.dwz_layout.specs.Laid.{Standing};
ghost use Rattle.dwz_encode.specs.Laws.{AreApart, IsOrderOf, IsOrderOver, PlacesAre, PlacesOver, SectionsAre, SectionsOver, StandBehind};
ghost use Rattle.dwz_encode.specs.Shown.{Keys};

/// Where an order shows the units of files, the common one first, what is laid of each file and written by it are the very sections that
/// the definitions of the output name, and each entry has the place of its name.
pub fn layout_laws()
    ensures sections { (keys : Keys EntryName) (k : EntryTable) (order : List (List UnitItems)) (files : List (FileOut EntryName))
        → IsOrderOf keys k order files → SectionsAre k order files }
    ensures places { (keys : Keys EntryName) (k : EntryTable) (order : List (List UnitItems)) (files : List (FileOut EntryName))
        → IsOrderOf keys k order files → PlacesAre keys k order files }
{}

/// The same over a common file that stands already: where an order shows the units of the other files, and these stand where numbers say,
/// what is laid and written by it are the sections by these numbers, and each entry that is there has the place of its name. Such numbers
/// are those of the names that have their places, and of the files behind, where no name is there twice.
pub fn standing_laws()
    ensures sections { (keys : Keys EntryName) (n : Numbering EntryName) (k : EntryTable) (s : Standing) (order : List (List UnitItems))
        (files : List (FileOut EntryName)) → IsOrderOver keys n k s order files → SectionsOver n k s order files }
    ensures places { (keys : Keys EntryName) (n : Numbering EntryName) (k : EntryTable) (s : Standing) (order : List (List UnitItems))
        (files : List (FileOut EntryName)) → IsOrderOver keys n k s order files → PlacesOver keys n k s order }
    ensures numbers { (rows : List (EntryName × ℕ)) (files : List (FileOut EntryName)) → AreApart rows files → StandBehind rows files }
{}
