//! What the documents of files say that were given, for whoever asks: units and entries by number and place, their attributes and tops, and
//! sections.
//!
//! `units` counts the units of all of these files of a `Graph`, and `unit` shows the one with a number: where it stands, its kind, its
//! language, and its root. `entry` shows the entry that begins at a place: its tag, its unit, how many attributes it has, and where its first child and
//! its next sibling begin, which lead through the whole tree. `attr` shows the attribute with a number, with its value, which loses nothing
//! of the document's: texts, paths, places of entries, and expressions with the places of those that they name. `attr_form` shows its name,
//! its form, and the number that the form stores. `top_of` is the number of the top, among those of all files, in which the entry at a place stands, and
//! `path_of` the way from that top down to it. `spaces_of` is the name list of the top with a number: the names of the spaces around it.
//! `section` is a section of a file, byte for byte, `has_section` whether there is one with a name, and `has_macro` whether that one is there. Of these, only `attr`, `path_of`
//! and `spaces_of` take memory.
//!
//! An entry is found by halves among those of its file, the number of its unit by counting those of the files before it, and the file of
//! a top by asking one file after the other.
//!
//! Read first: `specs/UnitViews.antt`, `specs/EntryViews.antt`, `specs/AttrViews.antt`, `specs/ValueViews.antt`, `specs/TopPaths.antt`,
//! `specs/Sections.antt`.
#![tactic(auto)]

mod attr_forms;
mod attr_views;
mod entry_views;
mod languages;
mod numbers;
mod pieces;
mod section_bytes;
mod setting;
mod spaces;
mod texts;
mod tops;
mod unit_views;
mod value_views;
mod values;

pub use attr_forms::{AttrForm, attr_form};
pub use attr_views::{AttrView, attr};
pub use entry_views::{EntryView, entry};
pub use section_bytes::{has_macro, has_section, section};
pub use spaces::spaces_of;
pub use tops::{path_of, top_of};
pub use unit_views::{UnitView, unit, units};
pub use value_views::ValueView;
