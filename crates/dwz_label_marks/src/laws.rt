//! What marks say of tops.

ghost use Rattle.dwz_label_marks.specs.Shown.{ApartLaw, ShownLaw, TellLaw};
ghost use Rattle.dwz_label_marks.specs.Told.{WordLaw};

/// A law on marks of tops, of any tops. Where they are told by the same names, the bytes are equal exactly if the languages, the name lists
/// and the bare trees are.
pub fn word_laws()
    ensures { WordLaw }
{}

/// Laws on labels that tell tops apart, whatever they are. Nodes that are made from them are those of the tops. Labels that tell the marks
/// of tops, all by one list of names, do so; and labels that are whole do.
pub fn show_laws()
    ensures nodes { ApartLaw }
    ensures marks { TellLaw }
    ensures whole { ShownLaw }
{}
