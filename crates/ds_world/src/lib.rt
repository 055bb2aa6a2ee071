//! The laws of a world: what splits, merges, leases, moves, old descriptors, foreign writes and
//! deliveries keep of it. Its functions do nothing; their clauses are the laws.
#![tactic(auto)]

mod laws;

pub use laws::{
    beside_laws, deliver_laws, event_laws, foreign_laws, lease_laws, merge_laws, move_laws,
    record_laws, split_laws, stale_laws,
};
