//! The transaction that a client has open.
ghost use Rattle.std.specs.Prelude.{◌≡◌, ◌≤◌, Some, None, IfOk, OnOk, OnErr, MatchResult};
ghost use Rattle.ds_kind.specs.Numbers.{last_number, numbers_from};
ghost use Rattle.ds_rule.specs.Deliver.{is_rollback};
ghost use Rattle.ds_rule.specs.Plain.{one_batch_more};
ghost use Rattle.ds_coord.specs.Client.{begun, failed_since, noted, noted_state, refusal_in, with_numbers};

use ds_base::{Seq, Stamp, TxnNo};
use ds_kind::{Batch, Request, Seqs, TxnStatus};
use ds_legal::{Legal, numbers};
use ds_rule::Outcome;
use std::alloc::{AllocError, Global};

/// How a transaction stands towards its client.
#[derive(Clone, Copy, Debug, PartialEq, Eq)]
pub enum TxnState {
    /// Its batches are sent.
    Live,
    /// The batch of this number failed, counted from 1; only a rollback may follow.
    Failed { since: u32 },
    /// Nobody knows whether its last batch acted.
    Unknown,
    /// It has ended so.
    Over { status: TxnStatus },
}

/// An open transaction, as its client knows it.
#[derive(Clone, Copy, Debug, PartialEq, Eq)]
pub struct Txn {
    pub number: TxnNo,
    /// All its reads and writes are at this stamp.
    pub stamp: Stamp,
    /// How often it was restarted.
    pub epoch: u32,
    /// The last number that it gave to a request.
    pub last: Seq,
    pub state: TxnState,
    /// How many of its batches were answered, those that were not sent too. The count stays at
    /// 4294967295 once it is there.
    pub batches: u32,
}

/// Whether the requests are one end that doesn't commit.
fn is_rollback(requests: &[Request]) -> bool
    ensures { result ≡ is_rollback requests.now }
{
    if requests.len() != 1 {
        return false;
    }
    match &requests[0] {
        Request::EndTxn(end) => !end.commit,
        _ => false,
    }
}

/// The last of the numbers, or the one before them.
fn last_number(last: Seq, seqs: &[Seq]) -> Seq
    ensures { result.0 ≡ last_number last.0 seqs.now }
{
    match seqs.last() {
        Some(seq) => *seq,
        None => last,
    }
}

/// One more, up to the counter's last value.
fn one_batch_more(batches: u32) -> u32
    ensures { result ≡ one_batch_more batches }
{
    batches.saturating_add(1)
}

impl TxnState {
    /// The state after the batch of this number failed.
    fn failed_since(self, number: u32) -> TxnState
        ensures { result ≡ failed_since number self }
    {
        match self {
            TxnState::Live => TxnState::Failed { since: number },
            TxnState::Failed { since } => TxnState::Failed { since },
            TxnState::Unknown => TxnState::Unknown,
            TxnState::Over { status } => TxnState::Over { status },
        }
    }

    /// The state after the batch of this number was answered so.
    fn noted(self, number: u32, outcome: &Outcome, end: Option<TxnStatus>) -> TxnState
        ensures { result ≡ noted_state number outcome.now end self }
    {
        match (outcome, end) {
            (Outcome::Illegal(_), _) => self,
            (Outcome::MustRollBack { .. }, _) => self,
            (Outcome::TxnOver { .. }, _) => self,
            (Outcome::Ok { .. }, None) => self,
            (Outcome::Ok { .. }, Some(status)) => TxnState::Over { status },
            (Outcome::Ambiguous { .. }, _) => TxnState::Unknown,
            (Outcome::OutOfMemory, Some(_)) => TxnState::Unknown,
            _ => self.failed_since(number),
        }
    }
}

impl Txn {
    /// A transaction that has asked nothing yet.
    pub fn begin(number: TxnNo, stamp: Stamp) -> Txn
        ensures { result ≡ begun number stamp }
    {
        Txn {
            number,
            stamp,
            epoch: 0,
            last: Seq(0),
            state: TxnState::Live,
            batches: 0,
        }
    }

    /// How it stands.
    pub fn state(&self) -> TxnState
        ensures { result ≡ self.now.state }
    {
        self.state
    }

    /// The last number that it gave to a request.
    pub fn numbers(&self) -> u32
        ensures { result ≡ self.now.last.0 }
    {
        self.last.0
    }

    /// Gives the batch's requests their numbers, which go on from the last one given. The one refusal is
    /// want of memory, which leaves the transaction as it was.
    pub fn number(&mut self, alloc: Global, legal: &Legal<'_>) -> Result<Seqs, AllocError>
        requires { self.old.last.0 ≤ 4000000000 }
        ensures numbers { IfOk result (λ seqs. seqs ≡ numbers_from self.old.last.0 legal.now.requests) }
        ensures given { OnOk result (self.new ≡ with_numbers legal.now.requests self.old) }
        ensures kept { OnErr result (self.new ≡ self.old) }
    {
        let seqs = numbers(alloc, legal, self.last)?;
        self.last = last_number(self.last, seqs.as_slice());
        Ok(seqs)
    }

    /// Whether the batch may be sent, or else what it is answered: after a failure all but a rollback
    /// are refused, and all once the transaction is over or nobody knows how it stands.
    pub fn admit(&self, batch: &Batch) -> Result<(), Outcome>
        ensures { MatchResult result (λ _. refusal_in self.now.state batch.now.requests ≡ None) (λ o. refusal_in self.now.state batch.now.requests ≡ Some o) }
    {
        match self.state {
            TxnState::Live => Ok(()),
            TxnState::Failed { since } => {
                if is_rollback(batch.requests.as_slice()) {
                    Ok(())
                } else {
                    Err(Outcome::MustRollBack { since })
                }
            }
            TxnState::Unknown => Err(Outcome::TxnOver {
                status: TxnStatus::Unknown,
            }),
            TxnState::Over { status } => Err(Outcome::TxnOver { status }),
        }
    }

    /// Notes what a batch of the transaction was answered; it is called once for each of them. `end` is
    /// the status that an Ok end was answered, `Unknown` where memory was wanting and a piece with the
    /// end was sent, and `None` in every other case.
    pub fn note(&mut self, outcome: &Outcome, end: Option<TxnStatus>)
        ensures { self.new ≡ noted outcome.now end self.old }
    {
        self.batches = one_batch_more(self.batches);
        self.state = self.state.noted(self.batches, outcome, end);
    }
}
