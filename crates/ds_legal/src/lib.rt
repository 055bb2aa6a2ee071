//! What a batch must be like before anything is sent, the sequence numbers of its requests, and the
//! parts that it is sent in.
#![tactic(auto)]

mod asks;
pub mod counting;
pub mod firsts;
pub mod grouping;
pub mod legal;
mod mix;
mod rules;

pub use counting::numbers;
pub use ds_kind::Illegal;
pub use grouping::parts;
pub use legal::{Legal, check};
