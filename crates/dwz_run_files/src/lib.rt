//! From files that were read to their new sections and those of their common file, in one call.
//!
//! `make_files` takes contents, graph, flags of prunable files and which files share; it answers `NewSectionsOfRun`: for each file of which something
//! moves its `NewFile`, the sections of the common file, if there is one, and how many partial units there are, the same for every number
//! of workers. First all is prepared (`prepare_files`): which tops move (DWARF 5, 3.1.1 and appendix E), what is settled, numbers and order
//! of all units, the lists that a layout looks into, texts of the common file, texts that stay. Then all is laid (`made`), and each file of
//! which something moves gets its sections (`sections`, by several workers: `lanes`), with numbers changed in place (6.1.2, 7.7.3 and
//! 7.26).
//!
//! `make_over` does the same over a finished common file (7.3.6): what is taken from that is said (`Fixed`), nothing of it is written, and of
//! what is left tops move in each file by itself. Most of what is said of prepared and laid files is said of both (`Beside`).
//!
//! Its laws lead from files that were read to what `dwz_law_layout` asks. `number_units`, `ranks_of`, `firsts_of` and `unit_places` are
//! public for tests.
//!
//! Read first: `specs/Ready.antt`, `specs/Prepared.antt`, `specs/Over.antt`; and `AreNew` (`NewFiles.antt` of `dwz_run_output`).
#![tactic(auto)]

mod bytes;
mod common;
mod common_sections;
mod counts;
mod lanes;
mod laws;
mod listed;
mod made;
mod moved;
mod moving;
mod narrow;
mod numbers;
mod ordered;
mod over;
mod places;
mod prepared;
mod pruned;
mod ranks;
mod sections;
mod settled;
mod standing;
mod units;
mod work;

pub use counts::number_units;
pub use laws::{
    facts_laws, moved_laws, refused_laws, room_laws, spot_laws, stood_laws, stored_laws,
};
pub use made::{NewSectionsOfRun, make_files};
pub(crate) use moving::with_moved_texts;
pub(crate) use ordered::OrderedFiles;
pub use over::make_over;
pub use places::unit_places;
pub(crate) use prepared::{PreparedFiles, prepare_files};
pub(crate) use pruned::{Written, prune_files};
pub use ranks::{firsts_of, ranks_of};
pub(crate) use settled::SettledRun;
