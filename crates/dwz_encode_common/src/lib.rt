//! Texts and paths of the common file, each once, in the order of first use; and the lists of a layout with them (DWARF 5, 7.3.6).
//!
//! `common_texts` and `common_paths` walk the order of the common file and answer a `Pool` each; `Pool::section` and `Pool::line_table` are
//! its `.debug_str` and `.debug_line`. `with_common` gives the lists with these places and numbers, made by `shared_texts`, `shared_names`
//! and `path_numbers`; nothing else of the lists is copied. Nothing is done where the common file has no unit.
//!
//! Over a common file that stands `StandingTexts::read` takes its `.debug_str`: the texts are those between the zero bytes; what stands
//! behind the last zero byte is none. `start_of` gives the place of the first that equals a text. No text is copied, so n bytes take n log n
//! steps. `with_standing` gives the lists with the places of these texts.
//!
//! Laws (`common_laws`, `shared_laws`, `number_laws`, `sharing_laws`, `pooled_laws`, `section_laws`): these are the texts and paths of the
//! run, and stand where the definition of forms says.
//!
//! Read first: `specs/Gathered.antt`, `specs/Shared.antt`, `specs/Paths.antt`; of a common file that stands `specs/Places.antt`, and
//! `texts_from` in `Files.antt` of `dwz_def_readback`.
#![tactic(auto)]

mod bases;
mod known;
mod laws;
mod numbers;
mod paths;
mod placed;
mod places;
mod pool;
mod sections;
mod shared;
mod spaces;
mod standing;
mod standing_texts;
mod stored;
mod texts;

pub use known::{with_common, with_standing};
pub use laws::{common_laws, number_laws, pooled_laws, section_laws, shared_laws, sharing_laws};
pub use numbers::path_numbers;
pub use paths::common_paths;
pub use placed::shared_texts;
pub use pool::Pool;
pub use shared::place_text;
pub use spaces::shared_names;
pub use standing::PlacedTexts;
pub use standing_texts::StandingTexts;
pub use texts::common_texts;
