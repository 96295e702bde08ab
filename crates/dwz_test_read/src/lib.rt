//! Tests of the readers, from abbreviation tables to units: what no whole run shows.
//!
//! A module for each crate that it tests, with bytes that were written down by hand or by a model that was written independently. A crate
//! with tests of its own is proved twice, so these stand on the libraries as their users do. Which file has which first fault, and what is
//! read of whole files, stands in the tables `first_faults` and `readings` of `dwz_test_rows`. Compare by the calls of `expect`, which are
//! proved once.
#![tactic(auto)]

#[cfg(test)]
mod abbrev;
#[cfg(test)]
mod by_workers;
#[cfg(test)]
mod expect;
#[cfg(test)]
mod forms;
#[cfg(test)]
mod lines;
#[cfg(test)]
mod lists;
#[cfg(test)]
mod unit;
