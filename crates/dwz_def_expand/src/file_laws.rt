//! The first refusal of what is written.

ghost use Rattle.dwz_def_expand.specs.Laws.{EitherLaw, OneRefusalLaw, SectionLaw};

/// Of what is written of a file without its partial units at most one refusal is the first; and some is, or none is. It is of the file or
/// of one of the sections that are written.
pub fn file_refusal_laws()
    ensures one { OneRefusalLaw }
    ensures either { EitherLaw }
    ensures section { SectionLaw }
{}
