//! One range: its descriptor with its lease, what stands at each of its keys, and what it answers.
#![tactic(auto)]

mod ask;
mod change;
mod copy;
mod join;
mod keep;
mod lease;
mod piece;
mod resolve;
mod serve;
mod settle;
mod shape;
mod state;

pub use ask::{Asked, Writes};
pub use keep::Undo;
pub use piece::{Evaluation, PieceUndo};
pub use state::RangeState;
