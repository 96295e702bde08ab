//! What units take from a finished common file, from files that were read beside it.
//!
//! `common_tops` gives the tops of the partial units of a common file by number, from its index (`part_tops`: from where the tops of each
//! begin), and `roots` where their roots stand. `joined_labels` puts the labels of the tops of files, without languages, and those that
//! tops of the common file have in looks across files behind each other: by them the least alike tops of all that looks go over are found
//! (`least_alike` of `dwz_label_files`), which are the classes of rows. `unit_tops` gives the tops of units that may move, and `kin_of`
//! the kin of tops, by the least alike ones of the files alone.
//!
//! `fixed` makes what is taken and what is blocked from such rows (`Rows` of `dwz_takes`, and kin with targets).
//!
//! Laws: labels show the tops that looks go over (`bare_laws`); least alike tops are classes, and give kin (`match_laws`); and rows that
//! have these tops and classes, with spaces and references, show files and common file (`row_laws`).
//!
//! Read first: `Beside.antt` and `Takes.antt` of `dwz_def_taken`, then `specs/MatchRows.antt`, `specs/RowLaws.antt`, `specs/Bare.antt`.
#![tactic(auto)]

mod bare;
mod common;
mod from_rows;
mod kin;
mod laws;
mod offsets;
mod parts;
mod units;

pub use bare::{bare_labels, joined_labels};
pub use common::common_tops;
pub use from_rows::fixed;
pub use kin::kin_of;
pub use laws::{bare_laws, match_laws, row_laws};
pub use offsets::roots;
pub use parts::part_tops;
pub use units::unit_tops;
