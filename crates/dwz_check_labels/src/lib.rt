//! The labels of tops, roots and spaces in looks across two files, and the tops that they lead into, written from the rows of the files.
//!
//! A `Source` is a file that was read, with its `CrossIndex`, and the common file beside which it was read, if there is one.
//! `put_top` appends the label of a top (`cross_label` of `dwz_def_check`), `put_lone` that of a root or a space alone (`lone_label`); each
//! appends in the same pass the numbers of the tops that the references lead into (`cross_targets`, `lone_targets`).
//! `labels_of` writes those of the two files of a graph and of their common one: first the tops of the old file, of the new one and of the
//! common one, and behind them the roots and spaces of the old file and of the new one. `labels_by_itself` writes those of the tops of a
//! file that was read by itself.
//!
//! Read first: `CrossLabels.antt` of `dwz_def_check`, then `specs/Files.antt`, `specs/Told.antt`.
#![tactic(auto)]

mod both;
mod by_itself;
mod entries;
mod files;
mod graph;
mod heres;
mod named_file;
mod names;
mod paths;
mod refs;
mod rows;
mod said;
mod source;
mod space_names;
mod tops;
mod values;

pub use both::{CrossLabels, labels_of_sources};
pub use by_itself::labels_by_itself;
pub use entries::put_lone;
pub use files::{put_lones, put_tops};
pub use graph::{labels_of, labels_of_files};
pub use heres::heres_of;
pub use named_file::NamedFile;
pub use source::Source;
pub use tops::put_top;
