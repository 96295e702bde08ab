//! What holds of the texts that are used.

ghost use Rattle.dwz_encode_texts.specs.UseLaws.{AfterLaw, NamedLaw, ShownLaw, SlotLaw};
ghost use Rattle.dwz_encode_texts.specs.MovedTexts.{EntryMovedLaw, NameMovedLaw, TextMovedLaw};

/// Where items show units, their texts are those that the units use; and what an entry uses is among what all units use. Where units say
/// what they are written for, each of their uses names a text. And where the uses of values are those of a file after, the sections that
/// are pruned are those that are written of it, and each use has the new number that its values have.
///
/// A text that stands where the definition of forms says, and is a use where it is written, stands where its new number says once it has
/// moved; and so do the texts of an entry, if all that it uses are among the uses, and the name of a space. None of them is a text of a
/// unit of the common file: those get no new numbers.
pub fn use_laws()
    ensures shown { ShownLaw }
    ensures slot { SlotLaw }
    ensures named { NamedLaw }
    ensures after { AfterLaw }
    ensures text { TextMovedLaw }
    ensures entry { EntryMovedLaw }
    ensures name { NameMovedLaw }
{}
