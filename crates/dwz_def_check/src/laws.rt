//! What names, labels, nodes and rows say of two files.

ghost use Rattle.dwz_def_check.specs.Answer.{OneSameLaw};
ghost use Rattle.dwz_def_check.specs.CheckLaws.{AllNamesLaw, ClosedCrossLaw, CrossAlikeLaw, CrossLooksLaw, DecidedLaw, EachNameLaw, LabelsLaw, ListedRowLaw};
ghost use Rattle.dwz_def_check.specs.CheckLaws.{LoneAlikeLaw, LoneLabelsLaw, MadeCrossLaw, NamedSideLaw, OneNameLaw, RowsAnswerLaw, SortedLaw};
ghost use Rattle.dwz_def_check.specs.CheckLaws.{TypePathLaw, UnitRowsLaw, WellReadLaw};

/// A law on what is said of two files: they mean the same, or have another number of units that aren't partial, or which of these are the
/// first that don't mean the same. At most one answer is right.
pub fn answer_laws<P, Q>()
    ensures { OneSameLaw P Q }
{}

/// Laws on names, for a file with its common one, where each reference names an entry, and no place is that of two entries. Each entry has one
/// name; the list of all names has just these; and so a function names places that does as the list does.
pub fn name_laws<P>()
    ensures one { OneNameLaw P }
    ensures each { EachNameLaw P }
    ensures list { AllNamesLaw P }
    ensures by { NamedSideLaw P }
{}

/// A law on files that were read, with a finished common file or without one: no place is that of two entries of a file and of the common one,
/// each reference names an entry of these, the type of a type unit is an entry of it, and all units of the common file are partial.
pub fn read_laws()
    ensures { WellReadLaw }
{}

/// Laws on labels of two such files. Two labels are equal exactly if the tops are, whatever the tops are that their references go into; and so
/// for roots and spaces alone.
pub fn label_laws<P, Q>()
    ensures tops { LabelsLaw P Q }
    ensures lone { LoneLabelsLaw P Q }
{}

/// Laws on nodes that show two such files. A look of a depth finds two tops equal exactly if it finds their nodes equal. So two tops are
/// alike exactly if their nodes are; and two roots or spaces have equal tags and attributes, with alike targets, exactly if theirs are.
/// Nodes that are made of labels and targets in lists, and of the first of equal labels, show what the lists show; and where there are
/// no others, each target is a node.
pub fn cross_node_laws<P, Q>()
    ensures looks { CrossLooksLaw P Q }
    ensures alike { CrossAlikeLaw P Q }
    ensures lone { LoneAlikeLaw P Q }
    ensures made { MadeCrossLaw P Q }
    ensures closed { ClosedCrossLaw P Q }
{}

/// Laws on rows that are made of lists, with the numbers of the tops, roots and spaces of each unit: they are the rows of units. The path to
/// the type of a type unit is that of its name, turned round.
pub fn list_laws<P>()
    ensures rows { ListedRowLaw P }
    ensures types { TypePathLaw P }
{}

/// Laws on rows of units, with the classes of such nodes. Two units mean the same exactly if their rows are the same; so the answer on two
/// files is the answer on their rows.
pub fn row_laws<P, Q>()
    ensures units { UnitRowsLaw P Q }
    ensures answer { RowsAnswerLaw P Q }
{}

/// The way from two files that were read to the answer on them, in one law.
pub fn decided_laws()
    ensures { DecidedLaw }
{}

/// A law on lists: two that are in one strict order have the same members exactly if they are equal.
pub fn sorted_laws<X>()
    ensures { SortedLaw X }
{}
