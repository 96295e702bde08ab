//! What is put, and what is said of it.

use dwz_model::{Blob, DwzList};
use dwz_outside::Put;
use dwz_report::Summary;

/// Puts, in order.
pub type Puts = DwzList<Put>;

/// What comes of files that aren't refused.
#[derive(Debug, Drop)]
pub struct Output {
    /// What is put, in order.
    pub puts: Puts,
    /// What is said where all is done.
    pub said: Said,
    /// Whether it is an answer on two files by which they differ.
    pub differs: bool,
    /// Whether it is of many files, each by itself, of which some are refused.
    pub partly: bool,
}

/// What a run says of what it did.
#[derive(Debug, Drop)]
pub enum Said {
    /// Files were slimmed, or one was written without its partial units: the lengths of all of them, in bytes, before and afterwards,
    /// and how many partial units they have together. It is a line for each file, or the one line of a demonstration, and nothing where
    /// the words ask for quiet.
    Slimmed { summary: Summary, partials: u32 },
    /// These parts, one behind the other.
    Parts(TextParts),
}

/// Parts of a text, in order.
pub type TextParts = DwzList<TextPart>;

/// A part of a text.
#[derive(Debug, Drop)]
pub struct TextPart {
    pub text: Blob,
    /// Whether it sums up what was done: then it is left out where the words ask for quiet.
    pub is_summary: bool,
}
