//! The label of a top, written from the rows of its entries.
//!
//! `put_top` appends language, name list and entries of a top of a file (`Source`) to a label; `put_rows`, `put_plain` and `put_target` do
//! so for entries, for what a value says besides the entries that it names, and for the path of such an entry in its top. `Scratch` has
//! rows that are used again from one top to the next. `language_of` is the language of a unit. `number_of`, `bytes_of`, `width_of`, `is_set`
//! and `row_of` say what a value stores; `front` and `behind` are parts of bytes.
//!
//! A new class of values is an arm of `plain` here and a first byte of its own in `dwz_label`.
//!
//! Read first: `Labels.antt` of `dwz_label`, then `specs/Plain.antt`, `specs/Targets.antt`.
#![tactic(auto)]

mod entries;
mod expressions;
mod language;
mod lists;
mod named;
mod names;
mod numbers;
mod plain;
mod refs;
mod simple;
mod source;
mod targets;
mod texts;
mod top;
mod values;

pub use entries::{count_of, put_rows};
pub use expressions::{behind, front};
pub use language::language_of;
pub use named::Named;
pub use numbers::{bytes_of, is_set, number_of, width_of};
pub use plain::put_plain;
pub use refs::behind_refs;
pub use source::{Scratch, Source};
pub use targets::{part, put_steps, put_target};
pub use texts::{put_text_at, row_of};
pub use top::put_top;
