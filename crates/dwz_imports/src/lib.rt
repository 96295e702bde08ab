//! Which partial units the units of a file import (DWARF 5, 3.2.5).
//!
//! `imports_of` takes a file as it was read, and the common file beside which it was read, if there is one, and answers `Imports`: of each
//! unit the partial units that children of its root import, in order of the imports, each once; and of each entry whether it imports one.
//! One pass over the entries; the unit whose root is named is found by halves.
//!
//! Laws: the same as relations (`import_laws`); and that files of a graph say what is asked for (`said_laws`).
//!
//! Read first: `Source.antt` of `dwz_def_expand`, then `specs/Imports.antt`, `specs/Said.antt`.
#![tactic(auto)]

mod collecting;
mod entries;
mod imports;
mod laws;
mod once;
mod roots;

pub use imports::{Imports, imports_of};
pub use laws::{import_laws, said_laws};
