//! The journal of a run.
use crate::answer::{Answer, Outcome};
use ds_base::{Dir, Key, ListOf};
use ds_desc::Looked;
use ds_kind::{Piece, TxnStatus};

/// One step of a sender.
#[derive(Drop)]
pub enum JournalStep {
    /// A lookup of the key in the direction, and its answer.
    Look {
        key: Key,
        dir: Dir,
        looked: Looked,
    },
    /// The piece was sent to the node, and its answer.
    Send {
        node: u8,
        piece: Piece,
        answer: Answer,
    },
}

/// The steps of one batch, in order.
pub type JournalSteps = ListOf<JournalStep>;

/// What a run says of one line of its script.
#[derive(Drop)]
pub enum Entry {
    /// A batch: its steps and what it came to.
    Batch {
        line: u32,
        steps: JournalSteps,
        outcome: Outcome,
    },
    /// A close, and how it left the transaction.
    Closed {
        line: u32,
        status: TxnStatus,
    },
    /// A restart, and the transaction's epoch after it.
    Restarted {
        line: u32,
        epoch: u32,
    },
}

/// The entries of a run, by rising line.
pub type RunLog = ListOf<Entry>;
