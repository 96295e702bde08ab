//! Tests of how a file is written without its partial units: from the bytes of small files to their new sections.
//!
//! They stand on the libraries as their users do, as in `dwz_test_base`.
#![tactic(auto)]

#[cfg(test)]
mod files;
