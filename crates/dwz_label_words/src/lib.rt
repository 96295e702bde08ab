//! The marks of a top, appended to bytes from the rows of its entries; and the numbers of names of what entries name again and again.
//!
//! `put_top_marks` tells a top: by a name where it stands (`name_place`), and each of its entries by `put_entry_marks`, with its shape, how
//! many entries are below it, and its values. `put_value` tells a value: a text, a path, an expression or a list by the number of its name,
//! a small number by itself, an entry by its path in its top. `Room` has rows that are used again from one value to the next.
//!
//! `FileNames` finds the name of each text of `.debug_str`, path of a line table, and shape of an entry (a tag with the names of the
//! attributes) once, and keeps its number by the offset, by the table and the row, and by the declaration: so a value that names one costs
//! a look into a slot. `text`, `path` and `shape` answer the number, `other` gives one to any bytes.
//!
//! Entries are told whose values name other entries only as references (`usual_laws`): so are all that may move.
//!
//! Read first: `marks_of` (`Marks.antt` of `dwz_label_marks`), then `specs/Told.antt`; of names `specs/Known.antt`.
#![tactic(auto)]

mod entries;
mod file_names;
mod files;
mod laws;
mod made;
mod numbers;
mod places;
mod room;
mod targets;
mod texts;
mod tops;
mod values;

pub use entries::put_entry_marks;
pub use file_names::FileNames;
pub use laws::usual_laws;
pub use places::name_place;
pub use room::Room;
pub use tops::put_top_marks;
pub use values::put_value;
