//! What a run did, as it is told at its end.

use dwz_model::{Blob, DwzList};

/// For each file in order its name, its length in bytes, and its new length, or None where nothing of it moves.
pub type SummaryLines = DwzList<(Blob, u64, Option<u64>)>;

/// What a run did.
#[derive(Debug, Drop)]
pub struct Summary {
    /// The name of the common file and its length in bytes, where it was put.
    pub common: Option<(Blob, u64)>,
    /// The files in the order of the command line.
    pub files: SummaryLines,
}
