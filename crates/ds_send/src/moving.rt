//! Sends a batch over ranges that may move: its parts are flown one after another.
ghost use Rattle.std.specs.Prelude.{◌≡◌, ◌<◌, true, length, IfOk, OnErr};
ghost use Rattle.std.specs.List.{list_all, list_any};
ghost use Rattle.ds_kind.specs.Asks.{flags_at, has_proper_span};
ghost use Rattle.ds_kind.specs.Parts.{requests_of};
ghost use Rattle.ds_mean.specs.Send.{DidSend};
ghost use Rattle.ds_retry.specs.Counted.{Counts};
ghost use Rattle.ds_rule.specs.Whole.{must_be_whole, span_if};
ghost use Rattle.ds_send.specs.Calls.{Broke, Flew};
ghost use Rattle.ds_send.specs.Moving.{IsMovable};
ghost use Rattle.ds_send.specs.Settled.{exhausted_as, failed_as, settled_as};

use crate::asked::Asked;
use crate::parts::fly_parts;
use crate::whole::whole_span;
use ds_cache::RangeCache;
use ds_flight::{Attempts, PartOutcome, Rule};
use ds_kind::{Failure, Items, Parts};
use ds_rule::{Outcome, Wire};
use std::alloc::{AllocError, Global};

/// The outcome of a batch of which a piece failed, where so many sends were lost at risk. A record
/// that is found committed leaves the batch in doubt.
fn failed_as(failure: Failure, at_risk: u32) -> Outcome
    ensures { result ≡ failed_as at_risk failure }
{
    match failure {
        Failure::Condition { i, actual } => Outcome::ConditionFailed { i, actual },
        Failure::TooOld { i, key, stamp } => Outcome::WriteTooOld { i, key, stamp },
        Failure::NotInteger { i } => Outcome::NotInteger { i },
        Failure::Overflow { i } => Outcome::Overflow { i },
        Failure::Aborted => Outcome::TxnAborted,
        Failure::Committed => Outcome::Ambiguous { lost: at_risk },
    }
}

/// The outcome of a batch whose budget was used up: in doubt where a send was lost at risk.
fn exhausted_as(at_risk: u32, refused: u32, lost: u32) -> Outcome
    ensures { result ≡ exhausted_as at_risk refused lost }
{
    if at_risk == 0 {
        Outcome::RetryExhausted { refused, lost }
    } else {
        Outcome::Ambiguous { lost: at_risk }
    }
}

/// What the batch is answered where its parts ended so.
fn settled_as(outcome: PartOutcome, at_risk: u32) -> Outcome
    ensures { (c : Counts) → c.at_risk ≡ at_risk → result ≡ settled_as c outcome }
{
    match outcome {
        PartOutcome::Done { replies, left: _ } => Outcome::Ok { replies },
        PartOutcome::NotWhole { desc } => Outcome::OpRequiresTxn { desc },
        PartOutcome::Failed(failure) => failed_as(failure, at_risk),
        PartOutcome::Ambiguous { lost } => Outcome::Ambiguous { lost },
        PartOutcome::Exhausted { refused, lost } => exhausted_as(at_risk, refused, lost),
    }
}

/// Whether some request sees or makes a state.
fn any_transactional(items: &Items) -> bool
    ensures { result ≡ list_any (λ i. (flags_at i.request).txn) items.now }
{
    items.as_slice().iter().any(|item| item.request.flags().txn)
}

/// Whether the batch must see one state without a transaction, so that all of it must lie in one
/// range.
fn must_be_whole(asked: &Asked) -> bool
    ensures { result ≡ must_be_whole asked.now }
{
    if !asked.consistent {
        return false;
    }
    if asked.head.txn.is_some() {
        return false;
    }
    any_transactional(&asked.items)
}

/// What must lie in one range, if anything: the least span over all requests.
fn rule_for(alloc: Global, asked: &Asked, whole: bool) -> Result<Rule, AllocError>
    requires some { 0 < length asked.now.items }
    requires proper { list_all has_proper_span (requests_of asked.now.items) ≡ true }
    ensures { IfOk result (λ r. r.whole ≡ span_if whole asked.now.items) }
{
    let whole = if whole {
        Some(whole_span(alloc, &asked.items)?)
    } else {
        None
    };
    Ok(Rule { whole })
}

/// Sends a batch without a limit and without an end of the transaction, part after part. The
/// answer's cause stands in the steps, as the law of a sender wants it.
pub(crate) fn send_moving<W: Wire>(
    alloc: Global,
    cache: &mut RangeCache,
    wire: &mut W,
    asked: &Asked,
    parts: &Parts,
    budget: u32,
) -> Result<Outcome, AllocError>
    requires movable { IsMovable asked.now parts.now (must_be_whole asked.now) }
    requires some_tries { 0 < budget }
    ensures did { IfOk result (λ o. DidSend budget asked.now (W.state wire.old) (W.state wire.new) o) }
    ensures flew { IfOk result (λ o. Flew budget asked.now (W.state wire.old) (W.state wire.new) cache.old.entries cache.new.entries o) }
    ensures broke { OnErr result (Broke budget asked.now (W.state wire.old) (W.state wire.new) cache.old.entries cache.new.entries) }
{
    let rule = rule_for(alloc, asked, must_be_whole(asked))?;
    let mut attempts = Attempts::new(budget);
    let outcome = fly_parts(alloc, cache, wire, parts, &asked.head, &rule, &mut attempts)?;
    Ok(settled_as(outcome, attempts.at_risk))
}
