//! What happens beside a batch.
use ds_base::{Copies, Key, ListOf, Stamp, TxnNo, Value};
use ds_desc::Nodes;
use std::alloc::{AllocError, Global};

/// One thing that happens in a cluster.
#[derive(Drop)]
pub enum Event {
    /// Another client writes a value, or a deletion.
    Write {
        key: Key,
        stamp: Stamp,
        value: Option<Value>,
    },
    /// The range that holds the key is split there.
    Split {
        key: Key,
    },
    /// The range that holds the key takes in its right neighbour.
    Merge {
        key: Key,
    },
    /// The lease of the range that holds the key moves to the node.
    Lease {
        key: Key,
        node: u8,
    },
    /// The range that holds the key moves to these nodes.
    Move {
        key: Key,
        nodes: Nodes,
    },
    /// The next lookup of the key is answered with an old descriptor, `back` before the newest.
    Stale {
        key: Key,
        back: u32,
    },
    /// The open transaction's record is aborted.
    Abort,
    /// The late copy of this number arrives.
    Arrive {
        copy: u32,
    },
    /// The step is not delivered; where a number is given, a copy of it stays under way.
    LoseRequest {
        copy: Option<u32>,
    },
    /// The step is delivered and its answer lost; a copy stays under way as above.
    LoseReply {
        copy: Option<u32>,
    },
    /// A copy of the step stays under way.
    Copy {
        copy: u32,
    },
    /// The transaction begins anew.
    Restart {
        txn: TxnNo,
    },
}

/// An event before the step of this number, counted from 1 in its batch.
#[derive(Drop)]
pub struct Timed {
    pub at: u32,
    pub event: Event,
}

/// Events by rising step.
pub type Events = ListOf<Timed>;

/// Which of the waiting pieces is sent next, one number for each send.
pub type Picks = ListOf<u32>;

/// What happens beside one batch.
#[derive(Drop)]
pub struct Block {
    pub events: Events,
    pub picks: Picks,
}

impl Copies for Event {
    fn copy(&self, alloc: Global) -> Result<Event, AllocError> {
        match self {
            Event::Write { key, stamp, value } => Ok(Event::Write {
                key: key.copy(alloc)?,
                stamp: *stamp,
                value: value.copy(alloc)?,
            }),
            Event::Split { key } => Ok(Event::Split {
                key: key.copy(alloc)?,
            }),
            Event::Merge { key } => Ok(Event::Merge {
                key: key.copy(alloc)?,
            }),
            Event::Lease { key, node } => Ok(Event::Lease {
                key: key.copy(alloc)?,
                node: *node,
            }),
            Event::Move { key, nodes } => Ok(Event::Move {
                key: key.copy(alloc)?,
                nodes: nodes.copy(alloc)?,
            }),
            Event::Stale { key, back } => Ok(Event::Stale {
                key: key.copy(alloc)?,
                back: *back,
            }),
            Event::Abort => Ok(Event::Abort),
            Event::Arrive { copy } => Ok(Event::Arrive { copy: *copy }),
            Event::LoseRequest { copy } => Ok(Event::LoseRequest { copy: *copy }),
            Event::LoseReply { copy } => Ok(Event::LoseReply { copy: *copy }),
            Event::Copy { copy } => Ok(Event::Copy { copy: *copy }),
            Event::Restart { txn } => Ok(Event::Restart { txn: *txn }),
        }
    }
}

impl Copies for Timed {
    fn copy(&self, alloc: Global) -> Result<Timed, AllocError> {
        Ok(Timed {
            at: self.at,
            event: self.event.copy(alloc)?,
        })
    }
}
