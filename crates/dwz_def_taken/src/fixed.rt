//! What is fixed by a finished common file.

use dwz_model::{DwzList, Flags, Numbers};

/// Lists of numbers.
pub type NumberLists = DwzList<Numbers>;

/// Numbers, where there are some.
pub type Choices = DwzList<Option<u32>>;

/// What the units of files take from a finished common file.
#[derive(Debug, Drop)]
pub struct Fixed {
    /// The offsets of the roots of its partial units, in order.
    pub roots: Numbers,
    /// For each unit the numbers of the partial units that it takes, in order; those of the common file take none.
    pub takes: NumberLists,
    /// For each top its image, a top of the common file, if it is taken.
    pub images: Choices,
    /// For each top whether it has to stay, since only some of those alike to it, or to what it refers to, are taken.
    pub blocked: Flags,
}
