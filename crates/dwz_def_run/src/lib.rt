//! What a run puts and says, as one function of its options and the contents of its files; which refusal comes first; and what each prefix
//! of the puts leaves.
//!
//! There is no running code here. `Out` says what comes of options and contents. Where two entries are to be explained it is `TellsWhy`:
//! the text on two places, of which nothing is put. Where two files are to be compared it is `Compares`: the line on these, and whether
//! they differ. Where one is to be written without its partial units it is `Expands`: that, and its line. Else it is `Slims`: puts,
//! summary, partial units. Or it is the first refusal, of reading, of a place or of what is written. `Stops` says what each prefix of the
//! puts leaves. The laws (`out_laws`): of options and contents comes just one thing; and after the first puts, however many, each FILE is as
//! it was or as it is made, and then its common file stands.
//!
//! `Comes` says what comes of any options: what `Out` says, or with `--reuse` what `Reuses` says of these, over a finished common file, which
//! is never put (DWARF 5, 7.3.6): puts and a summary, or the first refusal, of reading or of what is written; `ReusesStops` says what each
//! prefix of the puts leaves. The laws (`reuses_laws`, `comes_laws`): at most one thing comes of options and contents, and something does
//! where it is said what is taken; no put is of the common file; after the first puts, however many, each FILE is as it was, or as it is
//! made; and all lengths are numbers of 64 bits.
//!
//! `Batches` says what comes of many files over a finished common file, each as if it were alone with it: puts, a text, and whether some
//! file is refused; or the refusal of all. `BatchesStops` says what each prefix of the puts leaves. The laws on one FILE (`alone_laws`): what
//! comes of it alone is that nothing of it moves, or bytes, or a refusal, which is of that FILE. The laws on all (`batches_laws`): at most
//! one thing comes, the same for every number of workers; what is put at each FILE and said of it is that of a run of it alone; and after
//! the first puts, however many, each FILE is as it was, or as it is put alone, and one that is refused is as it was.
//!
//! Read first: `specs/Out.antt`, `specs/Tells.antt`, `specs/Compares.antt`, `specs/Expands.antt`, `specs/Stops.antt`; then
//! `specs/Comes.antt`, `specs/Reuses.antt`, `specs/ReusesStops.antt`, and `specs/Batches.antt`, `specs/BatchesStops.antt`.
#![tactic(auto)]

mod batches;
mod outcome;
mod reuses;

pub use batches::{alone_laws, batches_laws, yields_laws};
pub use outcome::out_laws;
pub use reuses::{comes_laws, reuses_laws};
