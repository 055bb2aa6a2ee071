//! Flies one part.
ghost use Rattle.std.specs.Prelude.{◌≡◌, ◌<◌, ◌≤◌, ◌∷◌, [], length, IfOk, OnErr};
ghost use Rattle.ds_cover.specs.Items.{AreProper, PositionsRise};
ghost use Rattle.ds_kind.specs.Left.{is_used_up};
ghost use Rattle.ds_retry.specs.declared.outcome.PartOutcome.TheVariants.{Exhausted};
ghost use Rattle.ds_flight.specs.Causes.{GoesOn};
ghost use Rattle.ds_flight.specs.Flown.{Began, Flown, flight};
ghost use Rattle.ds_flight.specs.Goes.{WholeHolds};
ghost use Rattle.ds_flight.specs.Picked.{most_of};
ghost use Rattle.ds_flight.specs.Searches.{course};
ghost use Rattle.ds_flight.specs.declared.work.Task.TheVariants.{Rest};

use crate::fill::{Filling, fill};
use crate::places::routed_count;
use crate::sent::{Sent, send_one};
use crate::short::end_short;
use crate::work::Task;
use ds_cache::RangeCache;
use ds_cut::Cutter;
use ds_gather::Gather;
use ds_kind::{Head, Left, Part};
use ds_retry::{Attempts, PartOutcome, Rule};
use ds_rule::Wire;
use std::alloc::{AllocError, Global};

/// How many routed pieces may wait: one under a limit, since what is left of it goes with each
/// piece; else sixteen.
fn most_waiting(left: &Left) -> usize
    ensures most { result ≡ most_of left.now }
    ensures few { result ≤ 16 }
{
    if left.rest().is_some() { 1 } else { 16 }
}

/// Whether there is a limit of which nothing is left.
fn is_used_up(left: &Left) -> bool
    ensures { result ≡ is_used_up left.now }
{
    left.rest() == Some(0)
}

/// The work begins as one rest.
fn first_work(alloc: Global, part: &Part) -> Result<Vec<Task>, AllocError>
    requires { AreProper part.now.items }
    ensures { IfOk result (λ work. work.items ≡ Rest part.now ∷ []) }
{
    let mut work = Vec::new(alloc);
    work.push(Task::Rest(Cutter::new(alloc, part)?))?;
    Ok(work)
}

/// The budget is used up.
fn exhausted(attempts: &Attempts) -> PartOutcome
    ensures { result ≡ Exhausted attempts.now.refused attempts.now.lost }
{
    PartOutcome::Exhausted {
        refused: attempts.refused,
        lost: attempts.lost,
    }
}

/// Sends a part over ranges that may move. Each piece goes to a replica of a range that the cache, a
/// lookup or a mismatch told of, up to sixteen pieces wait at once, and the wire picks which goes
/// next; a refused piece goes to another replica, is looked up again or cut by the rows it was told.
/// `left` is what is left of the batch's limit, if it has one; then pieces go one at a time, and the
/// part ends where it is used up. `attempts` counts all refusals and losses, also where memory is
/// wanting; it must not be used up yet.
///
/// `Done`: each item was answered. `NotWhole`: what must lie in one range doesn't lie in the one to
/// which the part's first key was routed, and nothing was done. `Failed`: the last piece that was
/// sent failed so. `Ambiguous`: the last send was lost, and nobody knows whether it acted.
/// `Exhausted`: the budget is used up, by the last step. Nothing is sent after what ends a flight,
/// nor where no try or nothing of the limit is left. Want of memory leaves pieces sent that were
/// sent, and tries left; the wire may have picked a piece that it wasn't asked to send.
pub fn fly<W: Wire>(
    alloc: Global,
    cache: &mut RangeCache,
    wire: &mut W,
    part: &Part,
    head: &Head,
    left: Left,
    rule: &Rule,
    attempts: &mut Attempts,
) -> Result<PartOutcome, AllocError>
    requires some { 0 < length part.now.items }
    requires proper { AreProper part.now.items }
    requires rise { PositionsRise part.now.items }
    requires whole { WholeHolds rule.now.whole part.now.items }
    requires goes_on { GoesOn attempts.old }
    ensures flown { IfOk result (λ o. Flown (flight part.now head.now rule.now.whole) left (course (W.state wire.old) cache.old.entries attempts.old) (course (W.state wire.new) cache.new.entries attempts.new) o) }
    ensures began { OnErr result (Began (flight part.now head.now rule.now.whole) left (course (W.state wire.old) cache.old.entries attempts.old) (course (W.state wire.new) cache.new.entries attempts.new)) }
{
    let mut remaining = left;
    let mut gather = Gather::new(alloc, part)?;
    let mut work = first_work(alloc, part)?;
    let most = most_waiting(&remaining);
    'flight: while !is_used_up(&remaining) {
        match fill(
            alloc, cache, wire, attempts, &mut work, most, head, rule, part.dir,
        )? {
            Filling::On => {}
            Filling::NotWhole { desc } => return Ok(PartOutcome::NotWhole { desc }),
            Filling::Spent => return Ok(exhausted(attempts)),
        }
        if routed_count(work.as_slice()) == 0 {
            return Ok(PartOutcome::Done {
                replies: gather.take(),
                left: remaining,
            });
        }
        match send_one(
            alloc,
            cache,
            wire,
            attempts,
            &mut gather,
            &mut remaining,
            &mut work,
            head,
        )? {
            Sent::On => {}
            Sent::Ended(outcome) => return Ok(outcome),
        }
    }
    end_short(alloc, part, gather, remaining, work)
}
