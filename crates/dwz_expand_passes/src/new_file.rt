//! What new units are copied from.

use crate::files::SourceFile;
use dwz_expand_sources::Sources;
use std::alloc::Global;

/// A file that was read, the common file beside which it was read, if there is one, and which of their entries are the sources of its new
/// units.
#[derive(Clone, Copy)]
pub struct NewFile<'s, 'a> {
    pub alloc: Global,
    pub own: SourceFile<'s, 'a>,
    pub common: Option<SourceFile<'s, 'a>>,
    pub sources: &'s Sources,
}
