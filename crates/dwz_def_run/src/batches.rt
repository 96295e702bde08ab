//! What comes of many files that are written over a finished common file, each by itself.

ghost use Rattle.dwz_def_run.specs.BatchesLaws.{AloneLaw, HeldBatchLaw, KeepLaw, NeverPutLaw, OneBatchLaw, OutputLaw, RefusalLaw};
ghost use Rattle.dwz_def_run.specs.BatchesLaws.{NeverNothingYieldsLaw, OneYieldsLaw, SameBatchLaw, SomeBatchLaw, StopBatchLaw};

/// Laws on what comes of one FILE alone: that nothing of it moves, or bytes; or a refusal, which is of that FILE, if the common file
/// reads.
pub fn alone_laws()
    ensures output { OutputLaw }
    ensures refusal { RefusalLaw }
{}

/// Laws on what comes of options and contents. At most one thing does, the same for every number of workers, and something does where it
/// is said what is taken of files that read. What is put at each FILE, and said of it, is that of a run of it alone, whatever the others
/// are, and so is what it holds after all puts. No put is of the common file, which so keeps its bytes; and after the first puts, however
/// many, each FILE is as it was, or as it is put alone, and it is as it was where it is refused.
pub fn batches_laws()
    ensures one { OneBatchLaw }
    ensures workers { SameBatchLaw }
    ensures some { SomeBatchLaw }
    ensures alone { AloneLaw }
    ensures held { HeldBatchLaw }
    ensures not_put { NeverPutLaw }
    ensures stops { StopBatchLaw }
    ensures keeps { KeepLaw }
{}

/// Laws on what comes of options and contents, whatever is asked for. At most one thing does, and it can't be that nothing does.
pub fn yields_laws()
    ensures one { OneYieldsLaw }
    ensures never_nothing { NeverNothingYieldsLaw }
{}
