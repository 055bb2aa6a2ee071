//! Whole scripts, line by line.
#![tactic(auto)]

mod asking;
mod built;
mod lines;
mod script;
mod state;

pub use built::first_unbuilt;
pub use script::replay;
