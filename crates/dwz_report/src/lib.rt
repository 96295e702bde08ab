//! The texts that a run writes on the console, byte for byte.
//!
//! `refusal_text`, `read_text`, `write_text`, `memory_text`, `usage_text`, `summary_text` and `demo_text` give one text each, from a
//! refusal, a name or a `Summary`. The texts of reasons stand at `Reason` of `dwz_model`. Names are written as the words have them.
//!
//! Read first: `specs/Texts.antt`.
#![tactic(auto)]

mod reasons;
mod summary;
mod texts;

pub use summary::{Summary, SummaryLines};
pub use texts::{
    demo_text, memory_text, read_text, refusal_text, summary_text, usage_text, write_text,
};
