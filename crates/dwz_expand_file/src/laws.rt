//! What is written reads.

ghost use Rattle.dwz_expand_file.specs.Laws.{NewFileReadsLaw};

use dwz_law_expand::made_laws;

/// Where a file reads, and nothing refuses what is written of it, the new file reads by itself, but for limits, and says the new units, each
/// entry at its place; where the file hasn't more section headers than a file by itself may have.
pub fn new_file_laws()
    ensures { NewFileReadsLaw }
{
    made_laws();
}
