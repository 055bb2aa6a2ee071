//! What a request says of one key.
use ds_base::{Stamp, Value};
use std::alloc::AllocError;

/// What one key adds to a reply.
#[derive(Debug, Drop)]
pub enum Bit {
    /// Nothing.
    Nothing,
    /// The value seen, or the one written.
    Value(Option<Value>),
    /// The key was deleted.
    Gone,
    /// The write asked for stands.
    Hit,
}

/// Why a request does not act on a key. The cell is as it was.
#[derive(Debug, Drop)]
pub enum ActFault {
    /// The value seen is not the one expected.
    Condition { actual: Option<Value> },
    /// A version or a waiting write stands at this stamp, which is not below the request's.
    TooOld { stamp: Stamp },
    /// A text was to be incremented.
    NotInteger,
    /// The sum is no `i64`.
    Overflow,
    /// Memory was wanting.
    Memory(AllocError),
}

/// What a kind decides by what it sees of a key.
#[derive(Debug, Drop)]
pub enum Verdict {
    /// The key stays, and this is the answer.
    Keep(Bit),
    /// This is written, a value or a deletion, and answered.
    Put(Option<Value>, Bit),
    /// Nothing is done.
    Refuse(ActFault),
}
