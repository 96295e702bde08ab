//! What is known of the nodes and units of two files that are compared: the columns of which their rows are made.
//!
//! `columns_of` takes two files as they were read, their common one, if there is one, and their indexes (`CrossIndexes` of
//! `dwz_check_index`), and answers `Columns` of `dwz_check_rows`: of each node a number for its name list and whether it shows a top that
//! imports no partial unit, and of each unit its nodes, the path to its type, and the partial units that it imports.
//!
//! One pass over the entries of each file; `dwz_check_sides` has the numbers of name lists and the nodes of units.
//!
//! Read first: `UnitRows.antt` of `dwz_check_rows`, then `specs/Shows.antt`.
#![tactic(auto)]

mod columns;
mod files;
mod imports;
mod nodes;
mod paths;
mod units;

pub use columns::columns_of;
