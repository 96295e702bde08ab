//! The course of a run over the outside: words, gets, the work, puts, and one text; how it ends, for each status with its cause.
//!
//! `run_course` takes words, files, a console and the work, and answers a `Status`. The work is a closure from options and contents to an
//! `Output` or a refusal, and a trait (`Work`) that says what it gives and what a demonstration makes: so the course is proved for any
//! work. `Output` has puts, and what is said of them. All is got and made before the first put.
//!
//! `stop_laws`: what is held after each prefix of puts, and after a failed one.
//!
//! Read first: `specs/Ends.antt`, `specs/Outcome.antt`, `specs/Puts.antt`, `specs/Gets.antt`.
#![tactic(auto)]

mod demo;
mod getting;
mod looking;
mod outcome;
mod output;
mod putting;
mod running;
mod saying;
mod status;
mod stops;
mod telling;

pub use outcome::Work;
pub use output::{Output, Puts, Said, TextPart, TextParts};
pub use running::run_course;
pub use status::Status;
pub use stops::stop_laws;
