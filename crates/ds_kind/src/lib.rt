//! The batch language: the kinds of request, what each may do, and what batches, pieces and
//! replies are made of.
#![tactic(auto)]

mod batch;
mod control;
mod flags;
mod illegal;
mod kind;
pub mod kinds;
mod left;
mod name;
mod reads;
mod reply;
mod request;
mod table;
mod writes;

pub use batch::{Batch, Head, Item, Items, Part, Parts, Piece, Requests, Seqs};
pub use flags::Flags;
pub use illegal::Illegal;
pub use kind::{Bounds, Kind};
pub use left::Left;
pub use name::KindName;
pub use reply::{Body, Failure, Flight, Flights, Replies, Reply, Row, Rows, TxnStatus};
pub use request::Request;
pub use table::{KindTable, compatible, compatible_both_ways};
