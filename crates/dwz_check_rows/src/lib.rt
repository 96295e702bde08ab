//! Whether two files mean the same, imports expanded (DWARF 5, 3.2.5), by the classes of the nodes that show their tops, roots and spaces.
//!
//! `Columns` says of each node the number of its name list, and of each unit which nodes are of it, and what it imports. `compare` makes a
//! `Row` of each unit that isn't partial, and answers what is said of the rows of both files. The tops of a unit are sorted once (`KeyLists`),
//! however many units import it. `check_text` is the line of the answer.
//!
//! Read first: `specs/UnitRows.antt`, and `Answer` and `CrossRows` of `dwz_def_check`.
#![tactic(auto)]

mod answer;
mod columns;
mod key_lists;
mod keys;
mod row;
mod text;

pub use answer::compare;
pub use columns::{Columns, RowKind, UnitList, UnitNodes};
pub use text::check_text;
