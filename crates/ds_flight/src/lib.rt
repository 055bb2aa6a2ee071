//! Sends one part over ranges that may move.
#![tactic(auto)]

mod cut;
mod fill;
mod flight;
mod places;
mod risk;
mod route;
mod sent;
mod short;
mod span;
mod spend;
mod take_off;
mod turned;
mod work;

pub use ds_retry::{Attempts, PartOutcome, Rule};
pub use flight::fly;
