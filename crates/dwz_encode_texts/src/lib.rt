//! Where the texts of files stand in `.debug_str`, which of them are used by what is written, and the sections in which just these stay.
//!
//! `texts_of_files` and `texts_of_spaces` give the place of each text that is stored by an offset or a slot, as it was read. `uses_of`
//! reads off an order which texts it uses, `prune_file` takes out the others (`PrunedFile`: the two sections and new numbers), and
//! `moved_texts` puts the new places into the lists, in place. `dwz_run_files` calls them one after the other.
//!
//! Laws: `text_laws`, `use_laws`.
//!
//! Read first: `specs/Texts.antt`, `specs/Used.antt`, `specs/PrunedFiles.antt`; and `Pruned.antt` of `dwz_def_encoding`.
#![tactic(auto)]

mod ends;
mod files;
mod laws;
mod moving;
mod names;
mod pruning;
mod text_uses;
mod texts;
mod used;

pub use files::texts_of_files;
pub use laws::text_laws;
pub use moving::{move_texts, moved_texts};
pub use names::texts_of_spaces;
pub use pruning::{PrunedFile, prune_file};
pub use text_uses::use_laws;
pub use texts::texts_of;
pub use used::uses_of;
