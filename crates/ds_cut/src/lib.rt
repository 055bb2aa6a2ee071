//! Cuts the requests of a part to the ranges that they are sent to.
//!
//! A [`Cutter`] holds what is still to be sent of a part. It tells at which key to look for a
//! range, and cuts off what lies in the range that was found there. At each key, one of the piece
//! and the rest has the positions of all that was left there, and the other none; and each item of
//! both is one that was left, cut, under its own position and number.
#![tactic(auto)]

mod clip;
mod cutter;
mod fate;
mod seek;
mod share;
mod spans;
mod within;

pub use cutter::Cutter;
