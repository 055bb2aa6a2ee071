//! The laws of moves and of a sender's steps: what they mean for each plain store that the world stands
//! for. Its functions do nothing; their clauses are the laws.
#![tactic(auto)]

mod laws;

pub use laws::{move_law, read_law, whole_law};
