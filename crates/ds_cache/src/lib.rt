//! The ranges that a client knows.
//!
//! A [`RangeCache`] keeps descriptors with their leases. Its entries never overlap and number at
//! most its capacity. An insertion of a newer descriptor takes out what it overlaps, and above the
//! capacity the entry that was not used for longest goes. Contracts speak of one list of entries,
//! the most recently used first, each behind its serial.
#![tactic(auto)]

mod cache;
mod compare;
mod inserted;
mod laws;
mod nearest;
mod outdated;
mod place;
mod standing;
mod taken;
mod uses;

pub use cache::{RangeCache, Token};
pub use inserted::Inserted;
pub use laws::{fresh_law, kept_law, put_law, standing_law, token_law};
