//! What a sender does after a piece was refused or lost, and how it counts both.
#![tactic(auto)]

mod attempts;
mod outcome;
mod step;

pub use attempts::Attempts;
pub use outcome::{PartOutcome, Rule};
pub use step::{Step, after, after_loss};
