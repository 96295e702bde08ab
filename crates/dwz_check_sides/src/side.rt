//! The files that are compared, one by one.

use dwz_check_index::CrossIndex;
use dwz_graph::File;

/// A file with its index, and the common file beside which it was read, if there is one. `IsSide` says that they fit.
#[derive(Clone, Copy)]
pub struct Side<'f, 'a> {
    pub file: &'f File<'a>,
    pub common: Option<&'f File<'a>>,
    pub index: &'f CrossIndex,
}
