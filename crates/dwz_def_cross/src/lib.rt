//! Whether two files mean the same, imports expanded (DWARF 5, 3.2.5 and 7.3.6).
//!
//! A file is seen with the common file that it refers to. Its tops are those of compile units and of partial ones, and the roots of type
//! units (`Tops`). Looks at two tops compare names, values and, by path, what they name, and go on along references (`CrossLook`); two files
//! mean the same where each unit that isn't partial has its roots, spaces and tops in the other, one alike for each (`CrossSame`).
//!
//! No code is here: definitions, and a law (`cross_laws`). Read first: `specs/Tops.antt`, `specs/CrossLook.antt`, `specs/CrossSame.antt`.
#![tactic(auto)]

mod laws;

pub use laws::cross_laws;
