//! Tests of what units take from a finished common file.
#![tactic(auto)]

#[cfg(test)]
mod taken;
