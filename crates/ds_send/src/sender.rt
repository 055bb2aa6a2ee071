//! The sender over ranges that may move.
ghost use Rattle.std.specs.Prelude.{◌≡◌, ◌<◌, ◌≤◌, true, [], Some, IfOk, OnErr};
ghost use Rattle.ds_kind.specs.Numbers.{numbers_from};
ghost use Rattle.ds_kind.specs.Parts.{items_from};
ghost use Rattle.ds_legal.specs.Rules.{first_illegal};
ghost use Rattle.ds_mean.specs.Send.{DidSend};
ghost use Rattle.ds_rule.specs.Asking.{Asking, asking};
ghost use Rattle.ds_rule.specs.Law.{IsGiven};
ghost use Rattle.ds_rule.specs.Pieces.{parts_apart};
ghost use Rattle.ds_send.specs.Asked.{asker_in, last_in};
ghost use Rattle.ds_send.specs.Calls.{Broke, Flew, FlewOrBroke, IsShown, Learned, StaysIf, WhereAsked};
ghost use Rattle.ds_send.specs.Forms.{can_send};
ghost use Rattle.ds_send.specs.Asked.{IsOpenFor};
ghost use Rattle.ds_send.specs.Calls.{Ruled};

use crate::asked::asked_by;
use crate::moving::send_moving;
use crate::txn::Txn;
use ds_base::{Seq, Stamp};
use ds_cache::RangeCache;
use ds_kind::{Batch, Parts};
use ds_legal::{Legal, check, numbers, parts};
use ds_rule::{Outcome, Wire};
use std::alloc::{AllocError, Global};
use std::marker::Model;

/// A sender: the ranges that it knows, and its budget. A contract sees the entries of its cache,
/// how many these may be, and how many refusals and losses a batch may meet.
#[derive(Drop)]
pub struct Sender {
    cache: RangeCache,
    budget: u32,
}

impl Model for Sender {
    ghost use Rattle.std.specs.Prelude.{◌<◌};
    ghost use Rattle.ds_send.specs.Sender.{SenderState};

    ghost Value = { SenderState };

    ghost view = { λ a. record { entries = a.cache.entries; capacity = a.cache.capacity; budget = a.budget } };

    ghost invariant = { λ a. 0 < a.budget };
}

/// The last number given before the batch's requests.
fn last_before(at: Option<Stamp>, txn: Option<Txn>) -> Seq
    ensures { result ≡ last_in at txn }
{
    match (at, txn) {
        (Some(_), _) => Seq(0),
        (None, Some(txn)) => txn.last,
        (None, None) => Seq(0),
    }
}

/// The parts of the batch, with the numbers after the last one given.
fn parts_after(alloc: Global, legal: &Legal<'_>, last: Seq) -> Result<Parts, AllocError>
    requires { last.0 ≤ 4000000000 }
    ensures { IfOk result (λ ps. ps ≡ parts_apart (items_from 0 legal.now.requests (numbers_from last.0 legal.now.requests))) }
{
    let seqs = numbers(alloc, legal, last)?;
    parts(alloc, legal, &seqs, true)
}

/// Sends a batch that keeps every rule.
fn send_legal<W: Wire>(
    alloc: Global,
    cache: &mut RangeCache,
    wire: &mut W,
    txn: Option<Txn>,
    legal: &Legal<'_>,
    budget: u32,
) -> Result<Outcome, AllocError>
    requires can { can_send legal.now ≡ true }
    requires open { IsOpenFor legal.now.at (asker_in txn) }
    requires some_tries { 0 < budget }
    ensures did { IfOk result (λ o. (q : Asking) → asking (asker_in txn) legal.now ≡ Some q → DidSend budget q (W.state wire.old) (W.state wire.new) o) }
    ensures flew { IfOk result (λ o. (q : Asking) → asking (asker_in txn) legal.now ≡ Some q → Flew budget q (W.state wire.old) (W.state wire.new) cache.old.entries cache.new.entries o) }
    ensures broke { OnErr result ((q : Asking) → asking (asker_in txn) legal.now ≡ Some q → Broke budget q (W.state wire.old) (W.state wire.new) cache.old.entries cache.new.entries) }
{
    let asked = match asked_by(alloc, txn, legal)? {
        Some(asked) => asked,
        None => unreachable!(),
    };
    let parts = parts_after(alloc, legal, last_before(legal.batch().at, txn))?;
    send_moving(alloc, cache, wire, &asked, &parts, budget)
}

/// Sends a batch that keeps every rule, and answers the first rule that any other breaks.
fn send_checked<W: Wire>(
    alloc: Global,
    cache: &mut RangeCache,
    wire: &mut W,
    txn: Option<Txn>,
    batch: &Batch,
    budget: u32,
) -> Outcome
    requires can { can_send batch.now ≡ true }
    requires open { IsOpenFor batch.now.at (asker_in txn) }
    requires some_tries { 0 < budget }
    ensures ruled { Ruled (first_illegal batch.now) result (W.state wire.old) (W.state wire.new) }
    ensures stays { StaysIf (first_illegal batch.now) cache.old cache.new }
    ensures did { IsGiven result → WhereAsked (first_illegal batch.now) (asking (asker_in txn) batch.now) (λ q. DidSend budget q (W.state wire.old) (W.state wire.new) result) }
    ensures sent { WhereAsked (first_illegal batch.now) (asking (asker_in txn) batch.now) (λ q. FlewOrBroke budget q (W.state wire.old) (W.state wire.new) cache.old.entries cache.new.entries result) }
{
    match check(batch) {
        Ok(legal) => match send_legal(alloc, cache, wire, txn, &legal, budget) {
            Ok(outcome) => outcome,
            Err(_) => Outcome::OutOfMemory,
        },
        Err(illegal) => Outcome::Illegal(illegal),
    }
}

impl Sender {
    /// A sender that knows no range yet. Both numbers are at least 1.
    pub fn new(alloc: Global, capacity: u32, budget: u32) -> Result<Sender, AllocError>
        requires some_room { 0 < capacity }
        requires some_tries { 0 < budget }
        ensures { IfOk result (λ s. s ≡ record { entries = []; capacity = capacity; budget = budget }) }
    {
        Ok(Sender {
            cache: RangeCache::new(alloc, capacity)?,
            budget,
        })
    }

    /// Sends the batch over the wire, and says what it came to. A batch without a stamp is of the
    /// open transaction. A batch that breaks a rule is answered with the first rule that it
    /// breaks, and nothing is sent. Any other is sent in its parts, one after another, each to the
    /// ranges that the cache, lookups and refusals told of, while refusals and losses are within
    /// the budget. The answer shows its cause in the steps that were made, and what was done is
    /// what the law of a sender over moving ranges speaks of. Pieces that were applied stay so,
    /// whatever the answer; what was learned of ranges stays in the cache.
    pub fn send<W: Wire>(
        &mut self,
        alloc: Global,
        wire: &mut W,
        txn: &mut Option<Txn>,
        batch: &Batch,
    ) -> Outcome
        requires can { can_send batch.now ≡ true }
        requires open { IsOpenFor batch.now.at (asker_in txn.old) }
        ensures ruled { Ruled (first_illegal batch.now) result (W.state wire.old) (W.state wire.new) }
        ensures stays { StaysIf (first_illegal batch.now) self.old self.new }
        ensures sent { WhereAsked (first_illegal batch.now) (asking (asker_in txn.old) batch.now) (λ q. FlewOrBroke self.old.budget q (W.state wire.old) (W.state wire.new) self.old.entries self.new.entries result) }
        ensures did { IsGiven result → WhereAsked (first_illegal batch.now) (asking (asker_in txn.old) batch.now) (λ q. DidSend self.old.budget q (W.state wire.old) (W.state wire.new) result) }
        ensures shown { IsGiven result → WhereAsked (first_illegal batch.now) (asking (asker_in txn.old) batch.now) (λ q. IsShown self.old.budget q (W.state wire.old) (W.state wire.new) self.old.entries result) }
        ensures learned { WhereAsked (first_illegal batch.now) (asking (asker_in txn.old) batch.now) (λ q. Learned (W.state wire.old) (W.state wire.new) self.old.entries self.new.entries) }
        ensures kept { self.new.budget ≡ self.old.budget }
        ensures same_txn { txn.new ≡ txn.old }
    {
        send_checked(alloc, &mut self.cache, wire, *txn, batch, self.budget)
    }
}
