//! The simulated cluster: a wire that answers lookups and pieces as the world says.
#![tactic(auto)]

mod block;
mod deliver;
mod due;
mod event;
mod look;
mod records;
mod shift;
mod sim;
#[cfg(test)]
mod table;
#[cfg(test)]
mod tests;

pub use block::BlockState;
pub use ds_ranges::{are_leased, tiles};
pub use shift::Shift;
pub use sim::Sim;
