//! The units that are written, file by file, with their entries in order; which files these are, and which import from the common file.
//!
//! `orders_of_files` takes graph and what is settled (`Settled`), and answers for the common file and for each file that is written its
//! units as `FileItems` (`dwz_layout`); `orders_over` does so over a common file that stands, of which nothing is written. They call
//! `put_units` for old units and `part_items` for partial ones. `changed_files` and `importing_files` are flags for each file; `marks_of`,
//! `space_rows`, `number_lists`, `top_spaces` and `parts_of_files` the lists that an order is made by. A walk over a unit goes from sibling
//! to sibling, past what is below tops.
//!
//! Laws (`kept_laws`, `part_laws`, `fit_laws`): what is written of each unit shows the unit after.
//!
//! Read first: `specs/Ordered.antt`, `specs/Kept.antt`, `specs/Parts.antt`.
#![tactic(auto)]

mod changed;
mod fits;
mod importing;
mod kept;
mod laws;
mod marks;
mod orders;
mod outline;
mod parts;
mod sorts;
mod spaces;

pub use changed::changed_files;
pub use fits::fit_laws;
pub use importing::importing_files;
pub use kept::{Source, put_units};
pub use laws::{kept_laws, part_laws};
pub use marks::{Marks, TopMark, marks_of};
pub use orders::{Settled, orders_of_files, orders_over};
pub use outline::Next;
pub use parts::{part_items, parts_of_files};
pub use spaces::{number_lists, space_rows, top_spaces};
