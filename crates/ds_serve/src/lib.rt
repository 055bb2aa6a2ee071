//! What serving a piece takes beside asking its items: how much of an item a limit lets be asked, what
//! is resolved by the records of transactions, and what the piece's ends do to the records.
#![tactic(auto)]

mod ends;
mod limit;
mod resolve;

pub use ends::{end_all, reopen};
pub use limit::{Share, left_after, share_of};
pub use resolve::{decided, keys_between, keys_in, resolves};
