//! Batches, and the parts and pieces that they are cut into.
ghost use Rattle.std.specs.Prelude.{◌≡◌, IfOk};

use crate::request::Request;
use ds_base::{Copies, Dir, ListOf, Seq, Stamp, TxnNo};
use std::alloc::{AllocError, Global};

/// The requests of a batch, in order.
pub type Requests = ListOf<Request>;

/// What a client asks at once.
#[derive(Drop)]
pub struct Batch {
    /// The stamp of a batch without a transaction; `None` for a batch of the transaction.
    pub at: Option<Stamp>,
    /// Whether all of it must see one state.
    pub consistent: bool,
    /// How many rows, deleted keys and found gets all requests together may answer.
    pub limit: Option<u32>,
    pub requests: Requests,
}

/// A request of a batch, or a part of one.
#[derive(Clone, Drop)]
pub struct Item {
    /// The position of the request in its batch, from 0.
    pub pos: u32,
    /// The request's sequence number.
    pub seq: Seq,
    pub request: Request,
}

/// Items by rising position.
pub type Items = ListOf<Item>;

/// Sequence numbers, one for each request.
pub type Seqs = ListOf<Seq>;

/// The requests of a batch that may be sent together.
#[derive(Drop)]
pub struct Part {
    pub items: Items,
    pub dir: Dir,
}

/// The parts of a batch, in order.
pub type Parts = ListOf<Part>;

/// Who sends a piece, and when.
#[derive(Clone, Copy, Debug, PartialEq, Eq)]
pub struct Head {
    pub at: Stamp,
    /// The transaction, if the piece is of one.
    pub txn: Option<TxnNo>,
    /// What is left of the batch's limit.
    pub left: Option<u32>,
    /// How often the transaction was restarted.
    pub epoch: u32,
}

/// What is sent to one range.
#[derive(Drop)]
pub struct Piece {
    pub head: Head,
    /// The id of the range.
    pub range: u32,
    pub items: Items,
    pub dir: Dir,
}

impl Part {
    ghost use Rattle.ds_kind.specs.declared.batch.Part.{Part};

    /// The part that has the piece's items and direction.
    pub fn of_piece(alloc: Global, piece: &Piece) -> Result<Part, AllocError>
        ensures { IfOk result (λ p. p ≡ record { items = piece.now.items; dir = piece.now.dir }) }
    {
        Ok(Part {
            items: piece.items.copy(alloc)?,
            dir: piece.dir,
        })
    }
}

impl Copies for Item {
    fn copy(&self, _alloc: Global) -> Result<Item, AllocError> {
        self.clone()
    }
}

impl Copies for Part {
    fn copy(&self, alloc: Global) -> Result<Part, AllocError> {
        Ok(Part {
            items: self.items.copy(alloc)?,
            dir: self.dir,
        })
    }
}

impl Copies for Piece {
    fn copy(&self, alloc: Global) -> Result<Piece, AllocError> {
        Ok(Piece {
            head: self.head,
            range: self.range,
            items: self.items.copy(alloc)?,
            dir: self.dir,
        })
    }
}
