//! Tests of the public calls of the crates below: one file for each crate that is tested.
//!
//! The tests stand here so that no crate is proved twice for them. What a contract proves has no
//! test; these show that calls succeed where there is memory, and that texts are right.
#![tactic(auto)]

#[cfg(test)]
mod base_tests;
#[cfg(test)]
mod cell_tests;
#[cfg(test)]
mod io_tests;
#[cfg(test)]
mod kind_tests;
