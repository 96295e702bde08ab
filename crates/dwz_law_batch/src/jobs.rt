//! What comes of jobs, each of which writes one file over a finished common file.

ghost use Rattle.dwz_law_batch.specs.Jobs.{JobsLaw};

/// Where the common file reads, there aren't too many bytes together, and these outcomes come of the jobs of the FILEs, what is made of
/// them is what comes of all.
pub fn job_laws()
    ensures jobs { JobsLaw }
{}
