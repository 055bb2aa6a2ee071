//! What a piece is answered, and what a batch comes to.
use ds_base::{Copies, Key, Stamp, Value};
use ds_desc::{RangeDesc, Refusal};
use ds_kind::{Failure, Illegal, Replies, TxnStatus};
use std::alloc::{AllocError, Global};

/// What the sender of a piece was answered.
#[derive(Drop)]
pub enum Answer {
    /// The piece was served whole: one reply for each item, in order.
    Done(Replies),
    /// The piece was begun and dropped whole.
    Failed(Failure),
    /// The piece was not begun.
    Refused(Refusal),
    /// The piece, or its answer, was lost.
    Lost,
}

/// What a batch comes to. Positions `i` are those of the batch's requests.
#[derive(Drop)]
pub enum Outcome {
    /// One reply for each request, in order.
    Ok { replies: Replies },
    /// The batch breaks a rule; nothing was sent.
    Illegal(Illegal),
    /// An earlier batch of the transaction failed, so that only a rollback may follow. `since` is
    /// that batch's number in the transaction, from 1.
    MustRollBack { since: u32 },
    /// The transaction has ended.
    TxnOver { status: TxnStatus },
    /// A consistent batch without a transaction needs more than the one range that was found.
    OpRequiresTxn { desc: RangeDesc },
    /// A commit that must act in one range needs more than the one that was found.
    NotOnePhase { desc: RangeDesc },
    /// A request saw another value than the one that it asked for.
    ConditionFailed { i: u32, actual: Option<Value> },
    /// A version at this stamp stands at the key, at or above the stamp of the write.
    WriteTooOld { i: u32, key: Key, stamp: Stamp },
    /// A text was to be incremented.
    NotInteger { i: u32 },
    /// A sum is no `i64`.
    Overflow { i: u32 },
    /// The transaction's record is aborted.
    TxnAborted,
    /// So many sends that might have committed were lost, and nothing settles whether one acted.
    Ambiguous { lost: u32 },
    /// The budget of refusals and losses was used up.
    RetryExhausted { refused: u32, lost: u32 },
    /// Memory was wanting; pieces already applied stay so.
    OutOfMemory,
}

impl Copies for Answer {
    fn copy(&self, alloc: Global) -> Result<Answer, AllocError> {
        match self {
            Answer::Done(replies) => Ok(Answer::Done(replies.copy(alloc)?)),
            Answer::Failed(failure) => Ok(Answer::Failed(failure.copy(alloc)?)),
            Answer::Refused(refusal) => Ok(Answer::Refused(refusal.copy(alloc)?)),
            Answer::Lost => Ok(Answer::Lost),
        }
    }
}

impl Copies for Outcome {
    fn copy(&self, alloc: Global) -> Result<Outcome, AllocError> {
        match self {
            Outcome::Ok { replies } => Ok(Outcome::Ok {
                replies: replies.copy(alloc)?,
            }),
            Outcome::Illegal(illegal) => Ok(Outcome::Illegal(*illegal)),
            Outcome::MustRollBack { since } => Ok(Outcome::MustRollBack { since: *since }),
            Outcome::TxnOver { status } => Ok(Outcome::TxnOver { status: *status }),
            Outcome::OpRequiresTxn { desc } => Ok(Outcome::OpRequiresTxn {
                desc: desc.copy(alloc)?,
            }),
            Outcome::NotOnePhase { desc } => Ok(Outcome::NotOnePhase {
                desc: desc.copy(alloc)?,
            }),
            Outcome::ConditionFailed { i, actual } => Ok(Outcome::ConditionFailed {
                i: *i,
                actual: actual.copy(alloc)?,
            }),
            Outcome::WriteTooOld { i, key, stamp } => Ok(Outcome::WriteTooOld {
                i: *i,
                key: key.copy(alloc)?,
                stamp: *stamp,
            }),
            Outcome::NotInteger { i } => Ok(Outcome::NotInteger { i: *i }),
            Outcome::Overflow { i } => Ok(Outcome::Overflow { i: *i }),
            Outcome::TxnAborted => Ok(Outcome::TxnAborted),
            Outcome::Ambiguous { lost } => Ok(Outcome::Ambiguous { lost: *lost }),
            Outcome::RetryExhausted { refused, lost } => Ok(Outcome::RetryExhausted {
                refused: *refused,
                lost: *lost,
            }),
            Outcome::OutOfMemory => Ok(Outcome::OutOfMemory),
        }
    }
}
