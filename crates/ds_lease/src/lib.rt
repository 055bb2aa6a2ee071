//! In which order the replicas of a range are tried.
#![tactic(auto)]

mod order;

pub use order::Order;
