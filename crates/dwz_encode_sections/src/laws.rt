//! What holds of the sections that are written.

ghost use Rattle.dwz_encode_sections.specs.Numbers.{EndLaw, PatchedLaw};
ghost use Rattle.dwz_encode_sections.specs.Ranges.{RangesLaw};
ghost use Rattle.dwz_encode_sections.specs.Slots.{SlotsLaw};

/// The operands of the location lists of a file end within `.debug_loclists`, so that they can be given numbers. Where its lists share
/// nothing, the section has then at each operand of each list the number of the place, and else the bytes that it had.
///
/// Slots that have the new numbers of uses of texts are those that are asked for, where the uses name texts and the numbers of all slots
/// that do are among them. Sets of address ranges have the places of their units, where each unit has its place beside where it began.
pub fn section_laws()
    ensures end { EndLaw }
    ensures patched { PatchedLaw }
    ensures slots { SlotsLaw }
    ensures ranges { RangesLaw }
{}
