//! Finds the range of a key, and goes from range to range.
//!
//! [`seek`] finds the range that contains a key in the cache, or else by one lookup, whose further
//! rows are kept for the seeks that follow. [`next_key`] says where the next range is to be sought.
#![tactic(auto)]

mod next;
mod rows;
mod seeking;
mod sought;

pub use next::next_key;
pub use seeking::seek;
pub use sought::Sought;
