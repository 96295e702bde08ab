//! What the units of files take from a finished common file.
//!
//! `match_common` goes from a graph, and which of its tops may move, to what is taken, as which tops of the common file, and what has to
//! stay: by rows and kin (`match_rows`), and what follows of these (`fixed` of `dwz_match`).
//!
//! What is known because files were read (`read_laws`): no two units or entries of a file have one place, each reference names an entry, and
//! the common file has partial units alone, by their roots too; so its tops can be looked at (`common_laws`). `common_labels` has their
//! labels, and where these lead: not outside of the file. `look_labels` puts those of all tops behind each other, `classes` finds the least
//! alike of these, and `kin` for each top of the files the first one that is alike to it in its file.
//!
//! Labels of looks across files lead into tops, and there the root of a type unit is a top too: `own_numbers` gives each the number that it
//! has among those of the files, if it has one. `put_refers` adds an edge for each top and each one that it refers into, also by operands;
//! `refers` groups those of all files. `space_names` groups the name lists of the spaces of units by number (`NameLists` of
//! `dwz_check_sides`), for the units of files and the partial units of the common file.
//!
//! Rows are put together from what is found of both: `top_units` has the unit of each top of files, `tops_of_parts` the tops of each partial
//! unit of the common file, `all_classes` the classes of all tops, and `look_rows` all rows (`Rows` of `dwz_takes`). Rows that have the tops,
//! the names of spaces, and what partial units refer to, show the spaces as is asked for (`space_laws`).
//!
//! Which tops of the common file may move: `tops_into` gives the tops that entries of the file are in, `tops_bind` tells of each top whether
//! an entry of it binds it, and `named_tops` marks those that operands name. `common_flags` puts these together and spreads them over
//! references. The operands of its location lists are known as is asked for here (`operand_laws`). Which partial units refer into which
//! others: `put_units` adds an edge from each unit to each one that a reference of it goes into, where operands of expressions are no
//! references; `part_targets` has for each partial unit those that it refers into.
//!
//! Read first: `specs/Takes.antt` of `dwz_def_taken` (`IsFixedOf`); `Bare.antt`, `ClassLaws.antt`, `RowLaws.antt` and `MatchRows.antt` of
//! `dwz_match`; then `specs/Placed.antt`, `specs/Read.antt`, `specs/Joined.antt`, `specs/Refers.antt`, `specs/SpaceNames.antt`, and
//! `specs/Rows.antt`, `specs/Matching.antt`. Of flags `Alike.antt` of `dwz_def_tops`, then `specs/Binding.antt`, `specs/Spread.antt`; of
//! partial units `specs/Puts.antt`.
#![tactic(auto)]

mod all_refers;
mod beside;
mod entry_binds;
mod entry_edges;
mod expressions;
mod file_kin;
mod file_refers;
mod file_spaces;
mod flags;
mod found;
mod into;
mod joined;
mod labels;
mod laws;
mod least_classes;
mod look;
mod look_classes;
mod matched;
mod named;
mod names;
mod own;
mod part_tops;
mod parts;
mod read_files;
mod rows;
mod spaces;
mod spread;
mod top_binds;
mod top_units;
mod unit_edges;
mod value_binds;
mod value_edges;

pub use all_refers::refers;
pub use file_kin::kin;
pub use joined::look_labels;
pub use labels::common_labels;
pub use least_classes::classes;
pub use matched::match_common;
pub use names::{SpaceNames, space_names};
pub use read_files::{common_laws, read_laws};
