//! Declarations by their numbers.

use dwz_abbrev::ReadDecl;
use dwz_model::Pair;

/// A declaration, its names and forms, and its number among those of all tables.
#[derive(Clone, Copy)]
pub(crate) struct Numbered<'t> {
    pub decl: &'t ReadDecl,
    pub pairs: &'t [Pair],
    pub number: u32,
}
