//! What requests are answered.
use ds_base::{Copies, Key, Keys, ListOf, Seq, Span, Stamp, Value};
use std::alloc::{AllocError, Global};

/// A key and the value that it shows.
#[derive(Clone, Drop)]
pub struct Row {
    pub key: Key,
    pub value: Value,
}

/// Rows in the order of a scan.
pub type Rows = ListOf<Row>;

/// A write in flight: the key and the number of the write.
#[derive(Clone, Drop)]
pub struct Flight {
    pub key: Key,
    pub seq: Seq,
}

/// The writes that a staged commit waits for.
pub type Flights = ListOf<Flight>;

/// How a transaction stands.
#[derive(Clone, Copy, Debug, PartialEq, Eq)]
pub enum TxnStatus {
    Committed,
    Aborted,
    Unknown,
    Staging,
}

/// What a reply says, by the kind of its request.
#[derive(Clone, Drop)]
pub enum Body {
    /// The value that a get saw.
    Got(Option<Value>),
    /// The rows of a scan, in its direction.
    Rows(Rows),
    /// Done, with nothing to say.
    Unit,
    /// The number that an increment wrote.
    Number(i64),
    /// The keys that a deletion over a span deleted, ascending.
    Gone(Keys),
    /// How an end left the transaction.
    Ended(TxnStatus),
    /// Whether the write asked for stands.
    Found(bool),
}

/// The answer of one request.
#[derive(Clone, Drop)]
pub struct Reply {
    pub body: Body,
    /// What a limit left of the request's span.
    pub resume: Option<Span>,
}

/// The replies of a batch or piece, by position.
pub type Replies = ListOf<Reply>;

/// Why a delivered piece failed; `i` is the position of the request in its batch.
#[derive(Clone, Drop)]
pub enum Failure {
    /// Another value was seen than the one expected.
    Condition { i: u32, actual: Option<Value> },
    /// A version at this stamp stands at or above the write's.
    TooOld { i: u32, key: Key, stamp: Stamp },
    /// A text was to be incremented.
    NotInteger { i: u32 },
    /// The sum is no `i64`.
    Overflow { i: u32 },
    /// The transaction's record is aborted.
    Aborted,
    /// The transaction's record is committed.
    Committed,
}

impl Copies for Row {
    fn copy(&self, _alloc: Global) -> Result<Row, AllocError> {
        self.clone()
    }
}

impl Copies for Flight {
    fn copy(&self, _alloc: Global) -> Result<Flight, AllocError> {
        self.clone()
    }
}

impl Copies for Body {
    fn copy(&self, _alloc: Global) -> Result<Body, AllocError> {
        self.clone()
    }
}

impl Copies for Reply {
    fn copy(&self, _alloc: Global) -> Result<Reply, AllocError> {
        self.clone()
    }
}

impl Copies for Failure {
    fn copy(&self, _alloc: Global) -> Result<Failure, AllocError> {
        self.clone()
    }
}
