//! That what is written of a file without its partial units can be written, and reads by itself (DWARF 5, 3.2.5, 7.3.6 and 7.5).
//!
//! Where nothing refuses a file that reads, beside its common file or without one, its new units are sound and fit, and each value says what
//! its form says, of the file by itself (`form_laws`). So what has the new sections reads as a file that is given, but for limits, and says
//! the new units (`read_laws`). What is made of the file, without `.debug_sup`, has them (`made_laws`). The new units mean what the file meant,
//! imports expanded, where the spaces of partial units fit those of the units that import them (`same_laws`): else a copy of a space is a
//! space that the unit had not.
//!
//! No code is here. Read first: `specs/Told.antt`, then `specs/FormLaws.antt`, `specs/ReadLaws.antt`, `specs/MadeLaws.antt` and
//! `specs/SameLaws.antt`.
#![tactic(auto)]

mod laws;

pub use laws::{form_laws, made_laws, read_laws, same_laws};
