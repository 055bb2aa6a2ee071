//! Ranges as a client knows them: descriptors, leases, and how they are looked up.
#![tactic(auto)]

pub mod desc;
pub mod meta;
pub mod nodes;
pub mod refusal;

pub use desc::{Info, Infos, Lease, RangeDesc};
pub use meta::{Looked, Meta};
pub use nodes::Nodes;
pub use refusal::Refusal;
