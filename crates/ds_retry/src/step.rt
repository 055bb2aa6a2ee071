//! What comes after a refusal or a loss.
ghost use Rattle.std.specs.Prelude.{◌≡◌, ◌+◌, ◌<◌, false};
ghost use Rattle.ds_retry.specs.Counted.{one_refused, one_lost};
ghost use Rattle.ds_retry.specs.Steps.{step_after, order_after, step_after_loss, is_exhausted, IsKnown, step_of, turned, or_relook, leaseholder_step, leaseholder_taken};

use crate::attempts::Attempts;
use ds_desc::Refusal;
use ds_lease::Order;

/// What a sender does next with a piece that did nothing, or of which it doesn't know.
#[derive(Clone, Copy, Debug, PartialEq, Eq)]
pub enum Step {
    /// Sends it to this node, by the same route.
    SameRoute { node: u8 },
    /// Drops the route and looks up again.
    Relook,
    /// Cuts it again by the ranges that the refusal gave.
    Recut,
    /// Gives up: the budget is used up.
    Exhausted { refused: u32, lost: u32 },
}

// To this node, or to a new lookup where there is none.
fn or_relook(next: Option<u8>) -> Step
    ensures { result ≡ or_relook next }
{
    match next {
        Some(node) => Step::SameRoute { node },
        None => Step::Relook,
    }
}

// The node that has the lease, where it is a replica.
fn to_leaseholder(order: &mut Order, node: u8) -> Step
    ensures step { result ≡ leaseholder_step node order.old }
    ensures order { order.new ≡ leaseholder_taken node order.old }
    ensures known { IsKnown order.old result }
{
    if !order.front(node) {
        return Step::Relook;
    }
    or_relook(order.next())
}

// What a refusal asks for, while the budget lasts.
fn step_of(order: &mut Order, refusal: &Refusal) -> Step
    ensures step { result ≡ step_of order.old refusal.now }
    ensures order { order.new ≡ turned order.old refusal.now }
    ensures known { IsKnown order.old result }
{
    match refusal {
        Refusal::NotFound => or_relook(order.next()),
        Refusal::NotLease { lease } => to_leaseholder(order, lease.node),
        Refusal::Mismatch { .. } => Step::Recut,
    }
}

/// Counts a refusal and says what comes after it. `Exhausted` exactly where the budget is now used
/// up, and the order stays then. Else a node without the range gives the next one of the order, or
/// `Relook` where there is none; a node without the lease gives the one that has it, which is taken
/// from the order's front, or `Relook` where that is no replica; and `Recut` comes where the range
/// doesn't hold the piece. The budget must not be used up yet.
pub fn after(attempts: &mut Attempts, order: &mut Order, refusal: &Refusal) -> Step
    requires { (attempts.old).refused + (attempts.old).lost < (attempts.old).budget }
    ensures counts { attempts.new ≡ one_refused attempts.old }
    ensures step { result ≡ step_after attempts.new order.old refusal.now }
    ensures order { order.new ≡ order_after attempts.new order.old refusal.now }
    ensures goes_on { is_exhausted result ≡ false → (attempts.new).refused + (attempts.new).lost < (attempts.new).budget }
    ensures known { IsKnown order.old result }
{
    if attempts.refuse() {
        return Step::Exhausted {
            refused: attempts.refused,
            lost: attempts.lost,
        };
    }
    step_of(order, refusal)
}

/// Counts a loss, at risk where nobody knows whether the send acted, and says what comes after it:
/// `Exhausted` exactly where the budget is now used up, else the same node. The budget must not be
/// used up yet.
pub fn after_loss(attempts: &mut Attempts, node: u8, risky: bool) -> Step
    requires { (attempts.old).refused + (attempts.old).lost < (attempts.old).budget }
    ensures counts { attempts.new ≡ one_lost risky attempts.old }
    ensures step { result ≡ step_after_loss attempts.new node }
    ensures goes_on { is_exhausted result ≡ false → (attempts.new).refused + (attempts.new).lost < (attempts.new).budget }
{
    if attempts.lose(risky) {
        return Step::Exhausted {
            refused: attempts.refused,
            lost: attempts.lost,
        };
    }
    Step::SameRoute { node }
}
