//! Laws from what comes of jobs to what comes of many files over a finished common file.
//!
//! A job does one FILE: what comes of it is that nothing of the file moves, or bytes, or a refusal (`IsOfJob`), as what comes of the FILE
//! alone. Where so comes of all jobs, in order, what is made of that, file by file, is what comes of all (`job_laws`): the puts, the lines
//! of the text, and whether one is refused.
//!
//! No code is here. Read first: `specs/Jobs.antt`.
#![tactic(auto)]

mod jobs;

pub use jobs::job_laws;
