//! The sender: it takes a batch, finds the ranges that hold its keys, sends each its piece, and
//! joins what they answer.
#![tactic(auto)]

mod asked;
mod forms;
mod moving;
mod parts;
mod sender;
mod txn;
mod whole;

pub use forms::can_send;
pub use sender::Sender;
pub use txn::Txn;
