//! All range descriptors so far, in the order in which they were made.
//!
//! A [`Lineage`] finds the descriptor that stands so many places before the last of those that
//! contain a key, without looking through all of them: each descriptor knows which ones it came
//! after.
#![tactic(auto)]

mod lineage;
mod node;

pub use lineage::Lineage;
