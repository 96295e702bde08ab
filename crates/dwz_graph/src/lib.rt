//! The files of a run: read, with references resolved, or their first fault; of each entry by its number its top, the way up, and
//! spaces; and what holds of all files, from what holds of each.
//!
//! `Graph::read` takes the contents of all files and answers them as `File`s (ELF headers, sections, units, and what values name), or
//! exactly the first fault in the order of the whole table, for every number of workers. `Graph::read_sup` reads a finished common file before
//! them (`Graph::read_beside` takes one that was read: a `CommonFile`), and `Graph::read_back` files that may have been written, beside one or without. What the values of a file name is read by
//! `dwz_graph_resolve`.
//!
//! `Graph::indexes` has an `Index` of each file that was given, with units, tops and spaces numbered over all of them: `top_of` and
//! `put_path` say where an entry stands, `space_text` what a space is called.
//!
//! Laws: the entry with a number has the name that stands for its place (`name_laws`, `top_laws`); flat rows mean the entries of the
//! document, in step (`flat_laws`, `step_laws`, `part_laws`); documents with places, from those where numbers stand for these
//! (`placed_laws`). Over all files: each with its index is one of the documents, with its units, tops and entries where the numbers of all
//! files say (`across_laws`, `entry_laws`); together they have at most 2^24 entries, so numbers of 32 bits do (`few_laws`).
//!
//! Read first: `specs/Files.antt`, `specs/ByRule.antt`, `specs/Index.antt`, `specs/Rows.antt`; over all files `specs/Across.antt`,
//! `specs/AllNames.antt`, `specs/Few.antt`.
#![tactic(auto)]

mod ahead;
mod building;
mod common_file;
mod few;
mod file;
mod flat;
mod graph;
mod index;
mod index_files;
mod laws;
mod placed;
mod readings;
mod rule;
mod spaces;
mod sup;
mod tops;

pub use common_file::CommonFile;
pub use dwz_graph_resolve::{
    Here, InputSections, ListOperand, TextSection, entry_of, first_attr, here_of, offset_of, slot,
    text_in,
};
pub use few::few_laws;
pub use file::File;
pub use flat::{flat_laws, flat_name_laws, flat_top_laws, part_laws, step_laws};
pub use graph::Graph;
pub use index::{Index, SpaceEntry, Starts, TopEntry};
pub use laws::{across_laws, entry_laws};
pub use placed::placed_laws;
pub use spaces::{is_space, space_text};
pub use tops::{name_laws, top_laws};
