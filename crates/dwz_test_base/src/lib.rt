//! Tests of the crates that know nothing of DWARF but codes and bytes: bytes, the shared table, nodes, rounds, chains, what
//! units take, and batches of jobs.
//!
//! A module for each crate that it tests. A crate with tests of its own is proved twice, so these stand on the libraries as their users do.
//! What no clause says is tested here: that calls succeed with ample memory, that two workers are at work at once (`Watch`), the published
//! hashes of FNV-1a, and small graphs and rows that were worked out by hand. A test ends where memory runs out, so no test hands on an error; graphs
//! are texts, of which only one function is proved (`graph`).
#![tactic(auto)]

#[cfg(test)]
mod batch;
#[cfg(test)]
mod bucket;
#[cfg(test)]
mod bytes;
#[cfg(test)]
mod chains;
#[cfg(test)]
mod codes;
#[cfg(test)]
mod expect;
#[cfg(test)]
mod gate;
#[cfg(test)]
mod nodes;
#[cfg(test)]
mod rounds;
#[cfg(test)]
mod shapes;
#[cfg(test)]
mod table;
#[cfg(test)]
mod taken;
#[cfg(test)]
#[cfg(test)]
mod taken_rows;
#[cfg(test)]
mod watch;
