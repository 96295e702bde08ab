//! Lists of numbers, one for each key, in one row; the rows of tops, whose targets are such lists; and marks that spread over references.
//!
//! `group` makes `Groups` from pairs of a key and a value by counting, in the time that there are pairs and keys; `Groups::get` is the list
//! of a key, `without_repeats` drops what comes twice. `Tops` is what is known of the tops of all files: a `TopRow` each (place, unit,
//! weight, whether it may move and whether it is pinned), the tops that each refers to, and which unit is of which file; it is filled by
//! `outline_files` of `dwz_move_files`, and read by `dwz_plan` and whoever asks for tops by number. `spread` marks what leads to marked
//! numbers, each looked at once.
//!
//! Read first: `specs/Groups.antt`, `specs/Spreading.antt`.
#![tactic(auto)]

mod groups;
mod marks;
mod tops;

pub use groups::{Edge, Groups, group};
pub use marks::spread;
pub use tops::{TopRow, TopRows, Tops};
