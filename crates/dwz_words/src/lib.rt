//! The command line: which words are lawful, and what they ask for.
//!
//! `clap` reads the words by the one command of `command`, `reading` takes the values of its matches, and `conditions` tests what they have
//! to meet beside. Contracts speak of `specs/Lawful.antt`, and of plain words as `specs/Plain.antt` has them. `asked` says what options ask
//! for: which files are got and how they are numbered, and the two places of `--explain`, whose words `clap` reads as four FILEs beside a flag.
//!
//! A further option is a row, a field and a test, whether it has a value or is a flag, behind which FILEs may follow:
//!
//! - The row is a rule in `specs/Command.antt`, after FILE's, and the call that makes it, at the end of `make_command`. Give it no
//!   `required` and no `conflicts_with`: only for options that have no rule on one another does `clap` say exactly where a parse fails.
//! - The field is one of `Options`, and its value in `options_of`, here and in `specs/Lawful.antt`.
//! - The test is in `specs/Conditions.antt`, and in the functions of `conditions`, which have the same names. An option that asks for a
//!   task is one more of `tasks`, at most one of which is asked for, and a case of `has_file_count` where its FILEs are counted otherwise.
//!   What else it has to meet is a definition, and a field of `FitTogether`.
//!
//! For plain words it is also an `Argument`, with a case in each definition of `specs/Plain.antt` that goes by cases, and in the proofs
//! that do. A rule that stands before FILE's keeps its place, by which `proofs/RangeLemmas.antt` finds it.
#![tactic(auto)]

mod asked;
mod command;
mod conditions;
mod options;
mod reading;

pub use asked::{common_read, names_got, names_numbered, places_asked};
pub use options::{Options, WordsErr};
pub use reading::parse;
