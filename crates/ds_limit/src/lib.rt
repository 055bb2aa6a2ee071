//! What a used up limit leaves of each request.
#![tactic(auto)]

mod fill;
mod rest;

pub use ds_kind::Left;
pub use fill::fill_rest;
