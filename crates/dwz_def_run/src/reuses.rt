//! What comes of files that are written over a finished common file.

ghost use Rattle.dwz_def_run.specs.ReusesLaws.{GotOverLaw, HeldOverLaw, LengthsOverLaw, NeverNoReuseLaw, NeverNothingComesLaw, NotPutLaw};
ghost use Rattle.dwz_def_run.specs.ReusesLaws.{OneComesLaw, OneReuseLaw, SomeReuseLaw, StopOverLaw};

/// Laws on what comes of options and contents. At most one thing does, something does where it is said what is taken of files that read,
/// and it can't be that nothing does. No put is of the common file, which so keeps its bytes; after the first puts, however many, each FILE
/// is as it was, or as it is made; and after all, each FILE or the one output holds what the file has after. The lengths of all files are
/// numbers of 64 bits. And what reads was got, all of it.
pub fn reuses_laws()
    ensures one { OneReuseLaw }
    ensures some { SomeReuseLaw }
    ensures never_nothing { NeverNoReuseLaw }
    ensures not_put { NotPutLaw }
    ensures stops { StopOverLaw }
    ensures got { GotOverLaw }
    ensures held { HeldOverLaw }
    ensures lengths { LengthsOverLaw }
{}

/// Laws on what comes of options, whether or not they name a finished common file. Of options and contents at most one thing comes, and it
/// can't be that nothing does.
pub fn comes_laws()
    ensures one { OneComesLaw }
    ensures never_nothing { NeverNothingComesLaw }
{}
