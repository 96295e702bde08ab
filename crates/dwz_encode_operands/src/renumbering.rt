//! What holds of the new numbers.

ghost use Rattle.dwz_encode_operands.specs.NumberLaws.{ImagesItselfLaw, ListsAfterLaw, NewNumbersLaw, OperandsThereLaw, RangesAfterLaw};
ghost use Rattle.dwz_encode_operands.specs.NumberLaws.{SectionAfterLaw, TargetsAfterLaw};

/// Each operand names an entry of its file, and what stands for an entry stands for itself. The numbers that are counted by the places of
/// entries and of units are the new numbers of the operands, and `.debug_loclists` with them is the one after; so is `.debug_aranges` with
/// the places of units, and the places of what stands for the targets of references are those of the run.
pub fn number_laws()
    ensures there { OperandsThereLaw }
    ensures themselves { ImagesItselfLaw }
    ensures operands { NewNumbersLaw }
    ensures lists { ListsAfterLaw }
    ensures section { SectionAfterLaw }
    ensures ranges { RangesAfterLaw }
    ensures targets { TargetsAfterLaw }
{}
