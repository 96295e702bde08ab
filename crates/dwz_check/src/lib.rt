//! Whether two files mean the same, imports expanded: from a graph of both, with their common file, to the answer.
//!
//! `check` takes the way of `dwz_def_check`: names of entries (`dwz_check_index`), labels and targets of tops, roots and spaces
//! (`dwz_check_labels`), the classes of alike nodes (`dwz_rounds`), and rows of units by these (`dwz_check_columns`, `dwz_check_rows`).
//!
//! Read first: `Answer.antt` of `dwz_def_check`.
#![tactic(auto)]

mod answer;
mod indexes;
mod nodes;

pub use answer::check;
