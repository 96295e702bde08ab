//! What is written of files that were read.

ghost use Rattle.dwz_def_output.specs.Laws.{EitherLaw, ListsLaw, MadeLaw, OneRefusalLaw, OrderLaw, RangesLaw, ReadBackLaw, SectionLaw};
ghost use Rattle.dwz_def_output.specs.Laws.{TiedLaw};

/// Laws on what is written. There is one order of the sections that are written again. The numbers that are changed in place leave
/// just one `.debug_loclists`, and one `.debug_aranges`. At most one refusal is the first, and where none is nothing refuses the files; it
/// is of a section.
///
/// Where files are written, each is made as is asked, so that all read back as the same along images: the common file, or none, and each
/// file of which something moves. Each that imports from the common file has its checksum.
pub fn written_laws()
    ensures order { OrderLaw }
    ensures lists { ListsLaw }
    ensures ranges { RangesLaw }
    ensures refusal { OneRefusalLaw }
    ensures either { EitherLaw }
    ensures section { SectionLaw }
    ensures made { MadeLaw }
    ensures back { ReadBackLaw }
    ensures tied { TiedLaw }
{}
