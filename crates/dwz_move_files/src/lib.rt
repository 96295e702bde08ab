//! The tops of all files, in order of place: unit, weight, targets, which are pinned and which may move.
//!
//! Each call takes the graph. `tops` answers `Tops` of `dwz_groups`, in which nothing is said yet of what may move, and `tops_by` the same
//! by several workers; `movable` a flag for each top: whether it may. `outline_files` answers both together, an `Outline`, by several
//! workers: the same for every number of them. Before each `named_tops` finds which tops operands of expressions and of location lists
//! name; one pass over the values of all entries each. `dwz_label_files` and `dwz_layout_input` read them.
//!
//! Read first: `specs/Outlines.antt`, `specs/Named.antt`.
#![tactic(auto)]

mod draft;
mod lists;
mod marks;
mod outline;
mod parts;
mod ranges;
mod stretches;

pub use marks::named_tops;
pub use outline::{Outline, movable, outline_files, tops, tops_by};
