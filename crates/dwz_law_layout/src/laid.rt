//! The laws, from the entries of one file that was read up to the sections of all files that are written. Each asks for facts of a run
//! (`AreFacts`), and mostly for the lists of a layout (`AreListed`) and for what is settled (`IsSettled`).

ghost use Rattle.dwz_law_layout.specs.NamedLaws.{EntryNamesLaw, KnownLaw, ReferencesLaw, SelfNamesLaw};
ghost use Rattle.dwz_law_layout.specs.OwnedLaws.{CommonPartsLaw, CommonReachedLaw, FilePartsLaw, FileReachedLaw, OwnedLaw, PartsLaw};
ghost use Rattle.dwz_law_layout.specs.Whole.{WholeLaw};
ghost use Rattle.dwz_law_layout.specs.Items.{KeptItemsLaw, PartItemsLaw};
ghost use Rattle.dwz_law_layout.specs.New.{NewItemsLaw, PartPlaceLaw, StayPlaceLaw, TopUnitLaw, UsedHomeLaw, WaysLaw};
ghost use Rattle.dwz_law_layout.specs.Moving.{MovesSoLaw};
ghost use Rattle.dwz_law_layout.specs.Old.{OldItemsLaw, SpaceLaw};
ghost use Rattle.dwz_law_layout.specs.Roots.{OthersLaw, UnitFilesLaw, UnitsShownLaw};
ghost use Rattle.dwz_law_layout.specs.Trees.{SpaceRowsLaw, SpaceUnitsLaw, TopFilesLaw, TopTreesLaw};
ghost use Rattle.dwz_law_layout.specs.Refers.{NamesThereLaw, NumbersCountedLaw, ReferLaw};
ghost use Rattle.dwz_law_layout.specs.Apart.{EntryNameLaw, RowsApartLaw, UnitNameLaw};
ghost use Rattle.dwz_law_layout.specs.ShownKept.{KeptKnownLaw};
ghost use Rattle.dwz_law_layout.specs.ShownParts.{CommonKnownLaw, PartsKnownLaw};
ghost use Rattle.dwz_law_layout.specs.Laid.{FilesFittedLaw, FilesKnownLaw, FilesShownLaw, NoneKnownLaw, RunFewLaw, RunFittedLaw, RunKnownLaw, RunOrderLaw, RunShownLaw, SettledOrderLaw};
ghost use Rattle.dwz_law_layout.specs.Laid.{RunLaidLaw, RunPlacesLaw, RunRootsLaw, RunSelfLaw};

/// What is written by a rule that finds tops alike exactly where they are is whole, if its choice is as it is asked for: no name stands
/// twice there, and each reference names an entry of its file or of the common one (DWARF 5, 7.5.5).
pub fn rule_laws()
    ensures { WholeLaw }
{}

/// Of each file that was read its entries are known, and each value as the file stores it. Its references lead to what stands for their
/// targets after. The name of an entry's number among all is that of its place; where it stands for itself, it is what stands for it after.
pub fn named_laws()
    ensures known { KnownLaw }
    ensures references { ReferencesLaw }
    ensures names { EntryNamesLaw }
    ensures themselves { SelfNamesLaw }
{}

/// In a file that is written, the owner of an entry that stands for itself is the unit in which its name stands; and the number of each
/// partial unit is that of it among the units that are written.
pub fn owned_laws()
    ensures entries { OwnedLaw }
    ensures parts { PartsLaw }
{}

/// Whether what is named stands in a unit, in its file, or in the common one (DWARF 5, 7.5.5) is told by the numbers of units: in a unit of
/// the common file, and in one of a file that is written; for what references name, and for the roots of partial units that are imported.
pub fn reached_laws()
    ensures common { CommonReachedLaw }
    ensures file { FileReachedLaw }
    ensures common_parts { CommonPartsLaw }
    ensures file_parts { FilePartsLaw }
{}

/// What is written of a partial unit stands for its root, for its tops, and for spaces that these stand in; and what is written of an old
/// unit for its root, for the tops below it that stay, for the spaces there, and for the partial units that it imports, or for all of it.
pub fn item_laws()
    ensures part { PartItemsLaw }
    ensures kept { KeptItemsLaw }
{}

/// In the units that were read: the tops and spaces of an old unit are its own, and it imports just partial units that have it among
/// their users; a partial unit holds its own tops, in spaces of the unit that these come from.
pub fn laid_unit_laws()
    ensures old { OldItemsLaw }
    ensures spaces { SpaceLaw }
    ensures ways { WaysLaw }
    ensures new { NewItemsLaw }
{}

/// The tops of a partial unit stand for themselves and are all of one unit, one of its users, and each has its place there; a top that
/// stays has its place in its unit. A unit uses partial units of its own file, and of the common one.
pub fn plan_laws()
    ensures units { TopUnitLaw }
    ensures moves { MovesSoLaw }
    ensures places { PartPlaceLaw }
    ensures stays { StayPlaceLaw }
    ensures used { UsedHomeLaw }
{}

/// From the row that the lists have for a top on stand its entry and all below it; and each top is of a file that was read.
pub fn top_laws()
    ensures trees { TopTreesLaw }
    ensures files { TopFilesLaw }
{}

/// At the row that the lists have for a space stands its entry, a namespace with its name (DWARF 5, 3.2.2); and each space is in a unit.
pub fn space_laws()
    ensures rows { SpaceRowsLaw }
    ensures units { SpaceUnitsLaw }
{}

/// The root that is named for a unit of a file, and all below it, are its own, as is the entry of the type of a type unit (DWARF 5, 3.1.4).
/// Each unit is of a file, and the units of a file stand side by side.
pub fn tree_laws()
    ensures shown { UnitsShownLaw }
    ensures files { UnitFilesLaw }
    ensures others { OthersLaw }
{}

/// Where an order shows files whose references name entries of these, and no two entries have one name, each entry that an attribute of
/// the order names, by its number among all files, is in the order, and so is the unit whose root it names. The name of each entry that
/// is in the order stands in the files. Numbers are those of entries and of units where those are that references lead to, those of units
/// that partial units are, and those of types of type units.
pub fn refer_laws()
    ensures refer { ReferLaw }
    ensures named { NamesThereLaw }
    ensures counted { NumbersCountedLaw }
{}

/// Each name of an entry that was read is that of an entry of a top, of a space, of an entry of a type unit, or of the root of a unit that
/// was read. A unit that is written has the name of an old unit or of a new one, and the root of a partial unit the name that only these
/// have. So, where keys are such names, an entry that was read has the name of no other, nor of anything that wasn't read.
pub fn apart_laws()
    ensures entries { EntryNameLaw }
    ensures units { UnitNameLaw }
    ensures rows { RowsApartLaw }
{}

/// In a file of which something moves, what is written of its old units is theirs: their order, their roots, the tops that stay, their
/// spaces and imports, and all that these name, so that it shows the units that are kept of them.
pub fn kept_known_laws()
    ensures { KeptKnownLaw }
{}

/// In a file that is written, what is written of its partial units shows these units (DWARF 5, 3.1.1): their roots, the tops that they
/// hold, and the spaces that these stand in, with all that their entries name, where texts stand as is said. So it is in the common file
/// (DWARF 5, 7.3.6), whose partial units come from all files that were read, where also its numbers of files are those of their paths.
pub fn parts_known_laws()
    ensures file { PartsKnownLaw }
    ensures common { CommonKnownLaw }
{}

/// The common file and the files that are written, with the forms of their values and, where a file is prunable, the new numbers of its
/// texts, are those of the run, so that what is known of them before shows them.
pub fn fitted_laws()
    ensures written { FilesFittedLaw }
    ensures fitted { RunFittedLaw }
    ensures files { FilesShownLaw }
    ensures shown { RunShownLaw }
{}

/// All that is written is known: the partial units of the common file (DWARF 5, 7.3.6), and then of each file that is written its partial
/// units (DWARF 5, E.1) and what is kept of its units. Where nothing is in the common file, nothing has to be known of its texts.
pub fn known_laws()
    ensures files { FilesKnownLaw }
    ensures all { RunKnownLaw }
    ensures none { NoneKnownLaw }
{}

/// An order that shows these files, of files that read, is an order of them: their units are sound (DWARF 5, 7.5), no name stands twice,
/// and each entry and each root that an attribute names is in the order. The texts of the common file are to be few, as they are where
/// nothing is in it; so what is settled is written in such an order.
pub fn order_laws()
    ensures order { RunOrderLaw }
    ensures few { RunFewLaw }
    ensures settled { SettledOrderLaw }
{}

/// Where an order shows these files, what is laid of each and written by it are the sections of the run, and each entry that is written
/// has the place that the run gives to its name: each that stands for itself in a file that is written, the roots of units (DWARF 5, 7.5.1)
/// among them, so many bytes behind their units as headers have.
pub fn laid_laws()
    ensures sections { RunLaidLaw }
    ensures places { RunPlacesLaw }
    ensures itself { RunSelfLaw }
    ensures roots { RunRootsLaw }
{}
