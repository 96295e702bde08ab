//! What holds of files whose other sections are written.

ghost use Rattle.dwz_expand_sections.specs.ListLaws.{ListsLaw};
ghost use Rattle.dwz_expand_sections.specs.NumberLaws.{ListNumbersLaw};
ghost use Rattle.dwz_expand_sections.specs.StartLaws.{FewLaw, StartsLaw};

/// Where a file reads, so does its `.debug_aranges`, and its units that aren't partial ascend; and new units that are laid begin at places
/// of four bytes, where together they aren't too large: what `ranges_after` asks for.
pub fn start_laws()
    ensures starts { StartsLaw }
    ensures few { FewLaw }
{}

/// Where a file reads, the operands of its location lists end within `.debug_loclists` and stand apart; and each operand of a list that a
/// value of the new file names is one of them, and leads to the entry that it named.
pub fn list_laws()
    ensures { ListsLaw }
{}

/// Numbers of the operands of a file's location lists are what `lists_after` asks for, where each operand of a value of the new file has
/// that one's number, and no other has a number.
pub fn number_laws()
    ensures { ListNumbersLaw }
{}
