//! What surrounds the units of a file: its sections, and the common file beside which it is read.

use crate::sections::{InputSections, TextSection};
use dwz_unit::Units;

/// What a common file gives to the files that are read beside it: its entries, and its texts.
#[derive(Clone, Copy)]
pub struct CommonPart<'c> {
    pub units: &'c Units<'c>,
    /// `.debug_str`
    pub strs: TextSection<'c>,
}

/// What the values of a file's units speak of.
#[derive(Clone, Copy)]
pub struct Surroundings<'a, 'c> {
    pub sections: InputSections<'a>,
    /// The common file beside which it is read, where there is one.
    pub common: Option<CommonPart<'c>>,
}
