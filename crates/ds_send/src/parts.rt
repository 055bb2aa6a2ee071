//! Flies the parts of a batch, one after another.
ghost use Rattle.std.specs.Prelude.{IfOk, OnErr, None};
ghost use Rattle.ds_rule.specs.Pieces.{Each};
ghost use Rattle.ds_flight.specs.Causes.{GoesOn};
ghost use Rattle.ds_flight.specs.Flown.{Began, flight};
ghost use Rattle.ds_flight.specs.Searches.{course};
ghost use Rattle.ds_send.specs.Batched.{IsFlyable, NextFlown, PartsBegan, PartsFlown};

use ds_cache::RangeCache;
use ds_flight::{Attempts, PartOutcome, Rule, fly};
use ds_kind::{Head, Left, Part, Parts, Replies};
use ds_rule::Wire;
use std::alloc::{AllocError, Global};

/// Flies one part more, and puts its replies behind those of the parts before it. What else it
/// came to ends the batch.
fn fly_next<W: Wire>(
    alloc: Global,
    cache: &mut RangeCache,
    wire: &mut W,
    part: &Part,
    head: &Head,
    rule: &Rule,
    attempts: &mut Attempts,
    replies: &mut Replies,
) -> Result<Option<PartOutcome>, AllocError>
    requires flyable { IsFlyable rule.now.whole part.now }
    requires goes_on { GoesOn attempts.old }
    ensures flown { IfOk result (λ o. NextFlown (flight part.now head.now rule.now.whole) (course (W.state wire.old) cache.old.entries attempts.old) (course (W.state wire.new) cache.new.entries attempts.new) replies.old replies.new o) }
    ensures began { OnErr result (Began (flight part.now head.now rule.now.whole) None (course (W.state wire.old) cache.old.entries attempts.old) (course (W.state wire.new) cache.new.entries attempts.new)) }
{
    match fly(
        alloc,
        cache,
        wire,
        part,
        head,
        Left::new(None),
        rule,
        attempts,
    )? {
        PartOutcome::Done {
            replies: more,
            left: _,
        } => {
            replies.append(alloc, more)?;
            Ok(None)
        }
        PartOutcome::NotWhole { desc } => Ok(Some(PartOutcome::NotWhole { desc })),
        PartOutcome::Failed(failure) => Ok(Some(PartOutcome::Failed(failure))),
        PartOutcome::Ambiguous { lost } => Ok(Some(PartOutcome::Ambiguous { lost })),
        PartOutcome::Exhausted { refused, lost } => Ok(Some(PartOutcome::Exhausted {
            refused,
            lost,
        })),
    }
}

/// Flies the parts of a batch without a limit, one after another, until one of them ends it.
pub(crate) fn fly_parts<W: Wire>(
    alloc: Global,
    cache: &mut RangeCache,
    wire: &mut W,
    parts: &Parts,
    head: &Head,
    rule: &Rule,
    attempts: &mut Attempts,
) -> Result<PartOutcome, AllocError>
    requires flyable { Each (IsFlyable rule.now.whole) parts.now }
    requires goes_on { GoesOn attempts.old }
    ensures flown { IfOk result (λ o. PartsFlown head.now rule.now.whole parts.now (course (W.state wire.old) cache.old.entries attempts.old) (course (W.state wire.new) cache.new.entries attempts.new) o) }
    ensures began { OnErr result (PartsBegan head.now rule.now.whole parts.now (course (W.state wire.old) cache.old.entries attempts.old) (course (W.state wire.new) cache.new.entries attempts.new)) }
{
    let all = parts.as_slice();
    let mut replies = Replies::new(alloc);
    let mut i = 0;
    'parts: while i < all.len() {
        let ended = fly_next(
            alloc,
            cache,
            wire,
            &all[i],
            head,
            rule,
            attempts,
            &mut replies,
        )?;
        if let Some(outcome) = ended {
            return Ok(outcome);
        }
        i += 1;
    }
    Ok(PartOutcome::Done {
        replies,
        left: Left::new(None),
    })
}
