//! Tests of how two files are compared: their rows by hand, and by chance beside the plain way; and files from their bytes to the line.
//!
//! They stand on the libraries as their users do, as in `dwz_test_base`. Definitions of files and of what they mean are below what is tested
//! here, so these tests stand in a crate of their own.
#![tactic(auto)]

#[cfg(test)]
mod expect;
#[cfg(test)]
mod fitting;
#[cfg(test)]
mod rows_of_units;
#[cfg(test)]
mod whole_files;
