//! All ranges of a cluster, found by key and by id without looking through them.
//!
//! The ranges stand by rising key in a vector, which is searched by halves. Under each id the place
//! of the range's descriptor is noted, among all descriptors so far: so a range is found by its id
//! through its start key, which it keeps for as long as it lives.
#![tactic(auto)]

mod begin;
mod copy;
mod descs;
mod event;
mod find;
mod ranges;
mod rows;
mod serve;
mod settle;
mod shape;
mod slot;
#[cfg(test)]
mod tests;
mod touched;

pub use begin::{are_leased, tiles};
pub use ranges::Ranges;
