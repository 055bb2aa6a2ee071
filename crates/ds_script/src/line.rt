//! The lines of a script.
use ds_base::{Key, ListOf, Stamp, Value};
use ds_desc::Nodes;
use ds_kind::Batch;
use ds_rule::{Block, Cluster};

/// What one line says.
#[derive(Drop)]
pub enum Line {
    /// The cluster that the script begins with.
    Cluster(Cluster),
    /// Another client writes a value, or a deletion.
    Write {
        key: Key,
        stamp: Stamp,
        value: Option<Value>,
    },
    /// The range that holds the key is split there.
    Split {
        key: Key,
    },
    /// The range that holds the key takes in its right neighbour.
    Merge {
        key: Key,
    },
    /// The lease of the range that holds the key moves to the node.
    Lease {
        key: Key,
        node: u8,
    },
    /// The range that holds the key moves to these nodes.
    Move {
        key: Key,
        nodes: Nodes,
    },
    /// The next lookup of the key is answered with an old descriptor, `back` before the newest.
    Stale {
        key: Key,
        back: u32,
    },
    /// The open transaction's record is aborted.
    Abort,
    /// The late copy of this number arrives.
    Arrive {
        copy: u32,
    },
    /// A transaction begins at the stamp, with the key as its anchor.
    Begin {
        stamp: Stamp,
        key: Key,
    },
    /// The transaction is settled.
    Close,
    /// The transaction begins anew.
    Restart,
    /// A batch is sent, and the block happens beside it.
    Batch {
        batch: Batch,
        block: Block,
    },
}

/// A line with its number in the script, from 1; blank lines are counted too.
#[derive(Drop)]
pub struct Numbered {
    pub number: u32,
    pub line: Line,
}

/// Lines by rising number.
pub type Lines = ListOf<Numbered>;
