//! The text of what a run did: a line of JSON for each step, answer, close and restart.
#![tactic(auto)]

mod lines;
mod printed;
mod ranges;
mod replies;
mod to_json;

pub use lines::{answer_object, closed_object, fault_object, restarted_object, step_object};
pub use printed::{fault_text, text};
