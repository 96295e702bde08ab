//! Abbreviation tables: read, looked up by code, made and written (DWARF 5, 7.5.3).
//!
//! `Table::read` answers the table at an offset of `.debug_abbrev`, or its fault. `decl` looks a code up. `append` gives a declaration the
//! next code; `write` appends the bytes by ascending code. A declaration stands at the place that its code says, as compilers number them;
//! only others are in a map.
//!
//! Where many tables are read, `ReadTable::read_up_to` puts the names and forms of all of them into one row, a `PairRow`, and stops at places
//! that are given, so that one table can go on with another.
//!
//! Read first: `specs/Views.antt`, and `SpellsTable` (`Abbrevs.antt` of `dwz_def_reading`).
#![tactic(auto)]

mod codes;
mod decl;
mod pair_row;
mod read_decl;
mod read_pair;
mod read_rows;
mod reading;
mod rows;
mod table;
mod writing;

pub use decl::Decl;
pub use pair_row::PairRow;
pub use read_decl::ReadDecl;
pub use read_rows::ReadRows;
pub use reading::ReadTable;
pub use table::Table;
