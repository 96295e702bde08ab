//! Tests of what leaves the program: texts, the command line, common files, demonstrations, and files on a disk.
//!
//! A module for each crate that it tests. A crate with tests of its own is proved twice, so these stand on the libraries as their users do.
//! Here some 250 command lines are read, whose answers come from a model that was written independently, or by hand from `--explain` on, and
//! files are put on a disk. Whole runs, with the files that are put and the texts, are rows of `dwz_test_rows`. A test ends where memory
//! runs out; to hand on an error costs more proof, as each value that is there is dropped.
#![tactic(auto)]

#[cfg(test)]
mod answers;
#[cfg(test)]
mod demo;
#[cfg(test)]
mod expect;
#[cfg(test)]
mod outside;
#[cfg(test)]
mod report;
#[cfg(test)]
mod sup;
#[cfg(test)]
mod words;
