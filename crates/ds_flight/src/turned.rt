//! What becomes of a piece that was refused or lost.
ghost use Rattle.std.specs.Prelude.{◌≡◌, ◌≤◌, false, length, IfOk, OnOk, OnErr};
ghost use Rattle.std.specs.List.{insert};
ghost use Rattle.ds_cache.specs.Insert.{put_all, PutFrom};
ghost use Rattle.ds_cover.specs.Items.{AreProper};
ghost use Rattle.ds_retry.specs.Counted.{one_lost, one_refused};
ghost use Rattle.ds_flight.specs.Causes.{GoesOn};
ghost use Rattle.ds_flight.specs.Places.{given_back};
ghost use Rattle.ds_flight.specs.Ends.{ends_at_once};
ghost use Rattle.ds_flight.specs.Sends.{evicted, learned, lost_sent, lost_work, GoesOnIfOn, LearnsFrom, TurnedAway};

use crate::cut::give_back;
use crate::sent::Sent;
use crate::work::{Flying, Task};
use ds_cache::{RangeCache, Token};
use ds_desc::{Infos, Refusal};
use ds_kind::Piece;
use ds_retry::{Attempts, PartOutcome, Step, after, after_loss};
use std::alloc::{AllocError, Global};

/// The lease that a refusal tells is kept.
fn learn(cache: &mut RangeCache, token: &Token, refusal: &Refusal)
    ensures { cache.new ≡ learned token.now refusal.now cache.old }
{
    if let Refusal::NotLease { lease } = refusal {
        cache.update_lease(token, *lease);
    }
}

/// The route is given up, and the piece becomes a rest in its place.
fn relook(
    alloc: Global,
    cache: &mut RangeCache,
    work: &mut Vec<Task>,
    at: usize,
    piece: &Piece,
    token: Token,
) -> Result<(), AllocError>
    requires place { at ≤ length work.old.items }
    requires proper { AreProper piece.now.items }
    ensures gone { cache.new ≡ evicted token cache.old }
    ensures work { OnOk result (work.new.items ≡ insert work.old.items at (given_back piece.now)) }
{
    cache.evict(token);
    give_back(alloc, work, at, piece)
}

/// The rows that were told come in the place of the route, and the piece becomes a rest in its place.
fn recut(
    alloc: Global,
    cache: &mut RangeCache,
    work: &mut Vec<Task>,
    at: usize,
    piece: &Piece,
    token: Token,
    infos: &Infos,
) -> Result<(), AllocError>
    requires place { at ≤ length work.old.items }
    requires proper { AreProper piece.now.items }
    ensures rows { OnOk result (cache.new ≡ put_all infos.now (evicted token cache.old)) }
    ensures begun { OnErr result (PutFrom infos.now (evicted token cache.old) cache.new) }
    ensures work { OnOk result (work.new.items ≡ insert work.old.items at (given_back piece.now)) }
{
    cache.replace(alloc, token, infos)?;
    give_back(alloc, work, at, piece)
}

/// After a refusal: the same route with another node, a new lookup, or the rows of a mismatch. A
/// lease that the refusal tells is kept, also where it uses up the budget.
pub(crate) fn turn_away(
    alloc: Global,
    cache: &mut RangeCache,
    attempts: &mut Attempts,
    work: &mut Vec<Task>,
    at: usize,
    flying: Flying,
    refusal: Refusal,
) -> Result<Sent, AllocError>
    requires place { at ≤ length work.old.items }
    requires proper { AreProper flying.piece.items }
    requires goes_on { GoesOn attempts.old }
    ensures counts { attempts.new ≡ one_refused attempts.old }
    ensures learns { LearnsFrom refusal cache.old cache.new }
    ensures turned { IfOk result (λ s. TurnedAway refusal flying attempts.new at cache.old cache.new work.old.items work.new.items s) }
    ensures goes_on { IfOk result (λ s. GoesOnIfOn attempts.new s) }
    ensures tries { OnErr result (GoesOn attempts.new) }
{
    let mut flying = flying;
    learn(cache, &flying.token, &refusal);
    match after(attempts, &mut flying.order, &refusal) {
        Step::SameRoute { node } => {
            flying.node = node;
            work.insert(at, Task::Routed(flying))?;
            Ok(Sent::On)
        }
        Step::Relook => {
            let Flying { piece, token, .. } = flying;
            relook(alloc, cache, work, at, &piece, token)?;
            Ok(Sent::On)
        }
        Step::Recut => {
            let Flying { piece, token, .. } = flying;
            let Refusal::Mismatch { infos } = refusal else {
                unreachable!()
            };
            recut(alloc, cache, work, at, &piece, token, &infos)?;
            Ok(Sent::On)
        }
        Step::Exhausted { refused, lost } => {
            Ok(Sent::Ended(PartOutcome::Exhausted { refused, lost }))
        }
    }
}

/// After a loss that ends nothing at once: the same node again, while the budget lasts.
fn send_again(
    attempts: &mut Attempts,
    work: &mut Vec<Task>,
    at: usize,
    flying: Flying,
    risky: bool,
) -> Result<Sent, AllocError>
    requires place { at ≤ length work.old.items }
    requires goes_on { GoesOn attempts.old }
    ensures counts { attempts.new ≡ one_lost risky attempts.old }
    ensures sent { IfOk result (λ s. s ≡ lost_sent false attempts.new) }
    ensures work { IfOk result (λ s. work.new.items ≡ lost_work flying at work.old.items s) }
    ensures goes_on { IfOk result (λ s. GoesOnIfOn attempts.new s) }
    ensures tries { OnErr result (GoesOn attempts.new) }
{
    match after_loss(attempts, flying.node, risky) {
        Step::SameRoute { .. } => {
            work.insert(at, Task::Routed(flying))?;
            Ok(Sent::On)
        }
        Step::Exhausted { refused, lost } => {
            Ok(Sent::Ended(PartOutcome::Exhausted { refused, lost }))
        }
        Step::Relook | Step::Recut => unreachable!(),
    }
}

/// After a loss: the same node again; or the end, at once where nobody knows what a piece of no
/// transaction left.
pub(crate) fn after_lost(
    attempts: &mut Attempts,
    work: &mut Vec<Task>,
    at: usize,
    flying: Flying,
    risky: bool,
) -> Result<Sent, AllocError>
    requires place { at ≤ length work.old.items }
    requires goes_on { GoesOn attempts.old }
    ensures counts { attempts.new ≡ one_lost risky attempts.old }
    ensures sent { IfOk result (λ s. s ≡ lost_sent (ends_at_once risky flying.piece.head.txn) attempts.new) }
    ensures work { IfOk result (λ s. work.new.items ≡ lost_work flying at work.old.items s) }
    ensures goes_on { IfOk result (λ s. GoesOnIfOn attempts.new s) }
    ensures again { OnErr result (ends_at_once risky flying.piece.head.txn ≡ false) }
    ensures tries { OnErr result (GoesOn attempts.new) }
{
    if risky && flying.piece.head.txn.is_none() {
        attempts.lose(true);
        return Ok(Sent::Ended(PartOutcome::Ambiguous {
            lost: attempts.at_risk,
        }));
    }
    send_again(attempts, work, at, flying, risky)
}
