//! What is written is whole, and reads by itself.

ghost use Rattle.dwz_def_expand.specs.Alone.{AloneLaw, ChosenLaw};
ghost use Rattle.dwz_def_expand.specs.ExpandLaws.{ChildrenLaw, CopiedLaw, FileLaw, OneExpandRefusalLaw, SourceLaw, StoredLaw, WholeLaw};
ghost use Rattle.dwz_def_expand.specs.Source.{Copy};

/// But for the numbers of units each entry of the new file is its source; and in a compile unit stand just the children that import no
/// partial unit, and those of the roots of the partial units that are imported. Where each value can be copied, no name stands twice in
/// the new file, no unit of it is partial, and each reference names an entry of it.
pub fn expand_laws<P>()
    ensures source { SourceLaw P }
    ensures children { ChildrenLaw P }
    ensures whole { WholeLaw P }
{}

/// At most one refusal of a file is the first. Each value can be copied, or else a first one refuses the file. Where nothing refuses a file that reads, beside its common file or without one, each value can
/// be copied, and the new file is whole. What is found of an attribute by the place of its entry is that entry's.
pub fn refusal_laws()
    ensures one { OneExpandRefusalLaw }
    ensures copied { CopiedLaw }
    ensures file { FileLaw }
    ensures stored { StoredLaw }
{}

/// Units that are written, none of them partial, and without forms that lead to a supplementary file, read as a file by itself, but for
/// limits; and the units that are written of a file without its partial units are such.
pub fn alone_laws<P>()
    ensures alone { AloneLaw (Copy P) }
    ensures chosen { ChosenLaw P }
{}
