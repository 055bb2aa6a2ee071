//! Sends a routed piece, and does what its answer asks for.
ghost use Rattle.std.specs.Prelude.{◌≡◌, ◌≤◌, ◌<◌, ◌^◌, ◌++◌, ◌∷◌, length, IfOk, OnOk, OnErr};
ghost use Rattle.ds_gather.specs.Gathered.{arrivals};
ghost use Rattle.ds_kind.specs.Left.{left_after};
ghost use Rattle.ds_rule.specs.Clauses.{later_picks};
ghost use Rattle.ds_rule.specs.Pieces.{Each};
ghost use Rattle.ds_flight.specs.Causes.{GoesOn};
ghost use Rattle.ds_flight.specs.Places.{waiting};
ghost use Rattle.ds_flight.specs.Searches.{course};
ghost use Rattle.ds_flight.specs.Sends.{load, IsSendable, LessensIfGoing, PieceRan, PieceSent, RoutedSent, Sendable, TakenNext};
ghost use Rattle.ds_flight.specs.declared.work.Task.TheVariants.{Routed};

use crate::places::{nth_routed, routed_count};
use crate::risk::is_risky;
use crate::spend::spend;
use crate::turned::{after_lost, turn_away};
use crate::work::{Flying, Task};
use ds_cache::RangeCache;
use ds_gather::Gather;
use ds_kind::{Head, Left, Piece, Replies};
use ds_retry::{Attempts, PartOutcome};
use ds_rule::{Answer, Wire};
use std::alloc::{AllocError, Global};

/// What came of one send.
#[derive(Drop)]
pub(crate) enum Sent {
    /// The flight goes on.
    On,
    /// The flight ends so.
    Ended(PartOutcome),
}

/// The replies of a piece are gathered, and what they hold is taken off the limit.
fn take_in(
    alloc: Global,
    gather: &mut Gather,
    left: &mut Left,
    piece: &Piece,
    replies: Replies,
) -> Result<(), AllocError>
    ensures left { left.new ≡ left_after left.old replies }
    ensures got { OnOk result (gather.new ≡ record { wanted = gather.old.wanted; got = gather.old.got ++ arrivals piece.now.items replies }) }
{
    spend(left, &replies);
    gather.put(alloc, piece, replies)
}

/// Sends the routed piece that stood at this place, with what is left of the limit.
fn send_routed<W: Wire>(
    alloc: Global,
    cache: &mut RangeCache,
    wire: &mut W,
    attempts: &mut Attempts,
    gather: &mut Gather,
    left: &mut Left,
    work: &mut Vec<Task>,
    at: usize,
    flying: Flying,
    head: &Head,
) -> Result<Sent, AllocError>
    requires place { at ≤ length work.old.items }
    requires ready { Sendable flying }
    requires goes_on { GoesOn attempts.old }
    ensures sent { IfOk result (λ s. RoutedSent head.now (course (W.state wire.old) cache.old.entries attempts.old) (course (W.state wire.new) cache.new.entries attempts.new) (load work.old.items gather.old left.old) (load work.new.items gather.new left.new) flying s) }
    ensures less { IfOk result (λ s. LessensIfGoing attempts.old attempts.new (Routed flying ∷ work.old.items) work.new.items s) }
    ensures few { OnOk result (waiting work.new.items ≤ waiting (Routed flying ∷ work.old.items)) }
    ensures ran { OnErr result (PieceRan head.now (course (W.state wire.old) cache.old.entries attempts.old) (course (W.state wire.new) cache.new.entries attempts.new) left.old (Routed flying ∷ work.old.items)) }
    ensures ahead { (W.state wire.new).ahead ≡ (W.state wire.old).ahead }
    ensures tries { OnErr result (GoesOn attempts.new) }
{
    let mut flying = flying;
    flying.piece.head = Head {
        left: left.rest(),
        ..*head
    };
    match wire.send(alloc, flying.node, &flying.piece)? {
        Answer::Done(replies) => {
            take_in(alloc, gather, left, &flying.piece, replies)?;
            Ok(Sent::On)
        }
        Answer::Failed(failure) => Ok(Sent::Ended(PartOutcome::Failed(failure))),
        Answer::Refused(refusal) => turn_away(alloc, cache, attempts, work, at, flying, refusal),
        Answer::Lost => {
            let risky = is_risky(&flying.piece);
            after_lost(attempts, work, at, flying, risky)
        }
    }
}

/// Takes out of the work the piece that the wire picks of those that wait.
fn take_next<W: Wire>(wire: &mut W, work: &mut Vec<Task>) -> (usize, Flying)
    requires some { 0 < waiting work.old.items }
    requires few { waiting work.old.items < 2 ^ 32 }
    ensures taken { TakenNext (W.state wire.old).ahead work.old.items work.new.items result.0 result.1 }
    ensures picked { W.state wire.new ≡ record (W.state wire.old) { ahead = later_picks (W.state wire.old).ahead } }
{
    let waiting = routed_count(work.as_slice());
    let pick = wire.pick(waiting as u32);
    let Some(at) = nth_routed(work.as_slice(), pick as usize) else {
        unreachable!()
    };
    let Task::Routed(flying) = work.remove(at) else {
        unreachable!()
    };
    (at, flying)
}

/// One turn of a flight: sends the piece that the wire picks of those that wait, to its node, with
/// what is left of the limit. What was answered Done is gathered and taken off the limit; a piece
/// that was refused or lost stands in its place again, as a rest where its route was given up. The
/// flight ends with a failure, with a loss of which nobody knows what it left, and with the budget.
pub(crate) fn send_one<W: Wire>(
    alloc: Global,
    cache: &mut RangeCache,
    wire: &mut W,
    attempts: &mut Attempts,
    gather: &mut Gather,
    left: &mut Left,
    work: &mut Vec<Task>,
    head: &Head,
) -> Result<Sent, AllocError>
    requires some { 0 < waiting work.old.items }
    requires few { waiting work.old.items < 2 ^ 32 }
    requires ready { Each IsSendable work.old.items }
    requires goes_on { GoesOn attempts.old }
    ensures sent { IfOk result (λ s. PieceSent head.now (course (W.state wire.old) cache.old.entries attempts.old) (course (W.state wire.new) cache.new.entries attempts.new) (load work.old.items gather.old left.old) (load work.new.items gather.new left.new) s) }
    ensures less { IfOk result (λ s. LessensIfGoing attempts.old attempts.new work.old.items work.new.items s) }
    ensures few { OnOk result (waiting work.new.items ≤ waiting work.old.items) }
    ensures ran { OnErr result (PieceRan head.now (course (W.state wire.old) cache.old.entries attempts.old) (course (W.state wire.new) cache.new.entries attempts.new) left.old work.old.items) }
    ensures picked { (W.state wire.new).ahead ≡ later_picks (W.state wire.old).ahead }
    ensures tries { OnErr result (GoesOn attempts.new) }
{
    let (at, flying) = take_next(wire, work);
    send_routed(
        alloc, cache, wire, attempts, gather, left, work, at, flying, head,
    )
}
