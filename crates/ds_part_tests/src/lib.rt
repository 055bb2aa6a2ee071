//! Tests of the public calls of the sender's parts, of the descriptors so far and of the records of
//! transactions: one file for each crate.
#![tactic(auto)]

#[cfg(test)]
mod cache_tests;
#[cfg(test)]
mod cut_tests;
#[cfg(test)]
mod gather_tests;
#[cfg(test)]
mod iter_tests;
#[cfg(test)]
mod lease_tests;
#[cfg(test)]
mod limit_tests;
#[cfg(test)]
mod lineage_tests;
#[cfg(test)]
mod records_tests;
#[cfg(test)]
mod retry_tests;
