//! Tests of the steps from tops to sections that no whole run shows.
//!
//! A call that `run` makes is tried by the tables of `dwz_test_rows`; here stand those that no run makes, or not on such values.
#![tactic(auto)]

#[cfg(test)]
mod finished;
#[cfg(test)]
mod labels;
#[cfg(test)]
mod standing;
#[cfg(test)]
mod tops;
#[cfg(test)]
mod workers;
