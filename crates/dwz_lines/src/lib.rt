//! Line tables (DWARF 5, 6.2.4): the paths of their files, and a header of given paths.
//!
//! `TableRows::read` reads the header of a table in `.debug_line`, or answers that none stands there; `path` joins the path of a row
//! with its directories; `has_strp` says whether a path stands in `.debug_str`. No path is kept, and of tables that begin inside one another
//! not all rows are. `LineSections::read` reads one table after the other, and no row of such tables again. `uses_strp` asks for forms in a whole section, which has to be a row of tables. `write_header` writes the header of a
//! table without a program. Line programs are never read.
//!
//! Read first: `FileTable` (`LineTables.antt` of `dwz_def_reading`), and `LinesWritten.antt` there.
#![tactic(auto)]

mod formats;
mod header;
mod kept_rows;
mod known_rows;
mod line_sections;
mod marked_rows;
mod marked_table;
mod paths;
mod rows;
mod runs;
mod section;
mod table_rows;
mod tables;
mod writing;

pub use line_sections::LineSections;
pub use section::uses_strp;
pub use table_rows::TableRows;
pub use writing::write_header;
