//! What a run puts and says, or why it puts nothing.

ghost use Rattle.dwz_def_run.specs.Laws.{DiffersLaw, LengthsLaw, NeverNothingLaw, OneOutcomeLaw, SomeOutcomeLaw, StopLaw};

/// Laws on what a run puts and says. Of options and contents comes just one thing: at most one does, and something does. Where two files
/// are compared, something does in so far as nothing can't, and the answer is that they differ just where they don't mean the same.
///
/// Where files are written, the lengths of all are numbers of 64 bits. Where they are slimmed, and after the first puts, however many, each
/// FILE is as it was, or is made so and the common file stands.
pub fn out_laws()
    ensures outcome { OneOutcomeLaw }
    ensures some { SomeOutcomeLaw }
    ensures never_nothing { NeverNothingLaw }
    ensures differs { DiffersLaw }
    ensures lengths { LengthsLaw }
    ensures stops { StopLaw }
{}
