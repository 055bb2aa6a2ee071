//! A transaction as its client knows it: which of its batches are sent, the numbers that it gives to
//! requests, and what becomes of it as its batches are answered.
#![tactic(auto)]

mod laws;
mod txn;

pub use laws::{batch_agrees, begin_agrees, events_agree, refusals_agree};
pub use txn::{Txn, TxnState};
